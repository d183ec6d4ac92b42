// The totals of two fields, which the finer game looks at.
ghost use Rattle.std.specs.Prelude.{◌≡◌, ◌≤◌};
ghost use Rattle.model.specs.Field.{at};
ghost use Rattle.model.specs.Sheet.{kind_count, card_of};
ghost use Rattle.model.specs.Sense as sense;
ghost use Rattle.second_reader.specs.Fields.{Fits};
ghost use Rattle.test_player.specs.Played as played;
ghost use Rattle.test_player.specs.Played.{sense_of};

use second_reader::kinds;

// The tokens of a field, of all kinds.
fn total(sheet: &[u8], field: &[usize; 32]) -> usize
    requires sheet_bound { kind_count sheet.now ≤ 32 }
    requires fits { Fits sheet.now 0 field.now }
    ensures { result ≡ sense.total (card_of sheet.now) (at field.now) }
{
    let mut tokens = 0;
    for kind in 0..kinds(sheet) {
        tokens += field[kind];
    }
    tokens
}

// Whether a pair passes what is looked at before any challenge: its totals, or nothing.
pub fn shares_total(sheet: &[u8], totals: bool, first: &[usize; 32], second: &[usize; 32]) -> bool
    requires sheet_bound { kind_count sheet.now ≤ 32 }
    requires fits { Fits sheet.now 0 first.now × Fits sheet.now 0 second.now }
    ensures { result ≡ played.shares_total (sense_of totals) (card_of sheet.now) (at first.now) (at second.now) }
{
    !totals || total(sheet, first) == total(sheet, second)
}
