// The lines that a field may use.
ghost use Rattle.std.specs.Prelude.{◌≡◌, ◌≤◌, ◌<◌};
ghost use Rattle.model.specs.Field.{at};
ghost use Rattle.model.specs.Sheet.{line_of};
ghost use Rattle.sheet.specs.Reader.{Reads};
ghost use Rattle.moves.specs.Lines.{usable, answers, next_of};
ghost use Rattle.moves.specs.Following.{Follows};

use crate::follow::{ENTRIES, following, row_entry};
use sheet::Card;

// Whether a field may use a line.
pub fn may_use(sheet: &[u8], card: Card, line: usize, field: &[u32; 32]) -> bool
    requires reads { Reads sheet.now card }
    requires line_lt_lines { line < card.lines }
    ensures { result ≡ usable (at field.now) (line_of sheet.now line) }
{
    let kind = card.line_kind(sheet, line);
    0 < field[kind]
}

// The first line from `from` up to `to` that is a reply of the field to a challenge by the line `challenge`; `to` where none is. The table leads from one line of the challenge's code to the next.
// No Option: a part of the walk goes from this line up to `to`, and is empty where they are one.
pub fn next_reply(
    sheet: &[u8],
    card: Card,
    table: &[u16; ENTRIES],
    challenge: usize,
    from: usize,
    to: usize,
    field: &[u32; 32],
) -> usize
    requires reads { Reads sheet.now card × Follows sheet.now table.now }
    requires challenge_lt_lines { (challenge < card.lines) × (from ≤ to) × (to ≤ card.lines) }
    ensures { result ≡ next_of (answers (line_of sheet.now challenge) (at field.now)) (line_of sheet.now) from to }
{
    let code = row_entry(sheet, card, challenge);
    let mut line = following(table, from, code);
    // A while: the table leads from line to line, and passes over those of other codes.
    while line < to {
        if may_use(sheet, card, line, field) {
            return line;
        }
        line = following(table, line + 1, code);
    }
    to
}
