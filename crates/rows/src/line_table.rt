// The lines of an accepted sheet, read once: one table of their kinds, their codes, and which of them lower the norm.
ghost use Rattle.std.specs.Prelude.{◌*◌, take};
ghost use Rattle.norms.specs.Norms.{Accepts};
ghost use Rattle.rows.specs.Stage.{LinesAre};

use norms::lines::lowers;
use sheet::Card;

// The table of the lines: its first bytes, three times the card's lines, hold them. It has room for the most lines.
pub fn line_table(sheet: &[u8], card: Card, norms: [u32; 32]) -> [u8; 768]
    requires { Accepts sheet.now card norms }
    ensures { LinesAre sheet.now (take (3 * card.lines) result) }
{
    let lines = card.lines;
    let marks = 2 * lines;
    let mut table = [0u8; 768];
    for line in 0..lines {
        table[line] = card.line_kind(sheet, line) as u8;
        table[lines + line] = card.line_code(sheet, line) as u8;
        if lowers(sheet, card, &norms, line) {
            table[marks + line] = 1;
        }
    }
    table
}
