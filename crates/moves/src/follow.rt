// The table of the lines that follow: flat, one row of 64 codes to a position, which is a line or the end of the lines. At a position and a code stands the first line
// from the position up that has the code, and the number of lines where there is none.
ghost use Rattle.std.specs.Prelude.{◌≡◌, ◌+◌, ◌*◌, ◌≤◌, ◌<◌};
ghost use Rattle.model.specs.Field.{at};
ghost use Rattle.model.specs.Limits.{most_codes, most_lines};
ghost use Rattle.model.specs.Sheet.{line_of};
ghost use Rattle.sheet.specs.Reader.{Reads};
ghost use Rattle.moves.specs.Following.{Long, RowSet, FollowsFrom, Follows};

use sheet::Card;

// The entries of the table: 257 positions of 64 codes.
pub const ENTRIES: usize = 16_448;

// The entry of a row that a line belongs to: its code.
pub fn row_entry(sheet: &[u8], card: Card, line: usize) -> usize
    requires reads { Reads sheet.now card }
    requires line_lt_lines { line < card.lines }
    ensures { (result ≡ (line_of sheet.now line).code) × (result < most_codes) }
{
    card.line_code(sheet, line)
}

// What stands in the table at a position and a code.
pub fn following(table: &[u16; ENTRIES], position: usize, code: usize) -> usize
    requires { (position ≤ most_lines) × (code < most_codes) }
    ensures { result ≡ at table.now (position * most_codes + code) }
{
    usize::from(table[position * Card::CODES + code])
}

// Sets the row of a position to one number.
fn fill_row(table: &mut [u16], position: usize, number: u16)
    requires { Long table.old × (position ≤ most_lines) }
    ensures { RowSet position (λ code. number) table.old table.new }
{
    let start = position * Card::CODES;
    table[start..start + Card::CODES].fill(number);
}

// Copies the row of the next position to that of a position.
fn copy_row(table: &mut [u16], position: usize)
    requires { Long table.old × (position < most_lines) }
    ensures { RowSet position (λ code. at table.old ((position + 1) * most_codes + code)) table.old table.new }
{
    let start = position * Card::CODES;
    let next = start + Card::CODES;
    table.copy_within(next..next + Card::CODES, start);
}

// The row of a line: that of the next position, with the line itself at its own code.
fn line_row(sheet: &[u8], card: Card, table: &mut [u16], line: usize)
    requires reads { Reads sheet.now card × FollowsFrom sheet.now (line + 1) table.old }
    requires line_lt_lines { line < card.lines }
    ensures { FollowsFrom sheet.now line table.new }
{
    let code = row_entry(sheet, card, line);
    copy_row(table, line);
    table[line * Card::CODES + code] = line as u16;
}

// The whole table, from the end of the lines down.
pub fn fill_table(sheet: &[u8], card: Card, table: &mut [u16])
    requires { Reads sheet.now card × Long table.old }
    ensures { Follows sheet.now table.new }
{
    fill_row(table, card.lines, card.lines as u16);
    for position in (0..card.lines).rev() {
        line_row(sheet, card, table, position);
    }
}
