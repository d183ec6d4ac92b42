// The use of a line: "one X goes, the counts come".
ghost use Rattle.std.specs.Prelude.{◌≡◌, ◌-◌, ◌<◌};
ghost use Rattle.model.specs.Field.{unit, at};
ghost use Rattle.model.specs.Card.{fire};
ghost use Rattle.model.specs.Sheet.{line_of};
ghost use Rattle.sheet.specs.Reader.{Reads};
ghost use Rattle.moves.specs.Lines.{Bounded};

use sheet::{Card, add_counts};

// One token of a kind goes, where the field has one.
fn less_one(field: &mut [u32], kind: usize)
    ensures { at field.new ≡ (λ j. at field.old j - unit kind j) }
{
    if field.len() <= kind {
        return;
    }
    let tokens = field[kind];
    if 0 < tokens {
        field[kind] = tokens - 1;
    }
}

// The field uses a line.
pub fn use_line(sheet: &[u8], card: Card, line: usize, field: &mut [u32])
    requires reads { Reads sheet.now card }
    requires line_lt_lines { line < card.lines }
    requires bounded { Bounded 1 field.old }
    ensures { at field.new ≡ fire (line_of sheet.now line) (at field.old) }
{
    less_one(field, card.line_kind(sheet, line));
    add_counts(field, card.line_counts(sheet, line));
}
