// The lines of the fields.
ghost use Rattle.std.specs.Prelude.{◌+◌, ◌*◌, ◌≤◌, ◌<◌, length};
ghost use Rattle.model.specs.Answer.{prime_form};
ghost use Rattle.model.specs.Sense.{plain};
ghost use Rattle.filer.specs.Settlement.{IsSettlement};
ghost use Rattle.text.specs.Appended.{Appended};
ghost use Rattle.listing.specs.Line.{field_text, fields_text};
ghost use Rattle.page.specs.Lengths.{most_field};

use filer::form::form_accepted;
use filer::settlement::Settlement;
use listing::put_field;

// The line of one field of a settled sheet.
fn put_settled_field(
    out: &mut [u8],
    at: usize,
    sheet: &[u8],
    settlement: &Settlement,
    field: usize,
) -> usize
    requires settlement { IsSettlement plain sheet.now settlement.now }
    requires field_lt_fields { field < settlement.now.card.fields }
    requires most_field_in_bounds { at + most_field ≤ length out.old }
    ensures { Appended most_field out.old at (field_text field (prime_form sheet.now field)) out.new result }
{
    let n = settlement.card.kinds;
    let mut form = [0u64; 32];
    // No field of an accepted sheet is refused, and the array has room for any form.
    let _ = form_accepted(sheet, settlement, field, &mut form);
    put_field(out, at, field, &form[..n])
}

// The lines of all fields of a settled sheet.
pub fn put_fields(out: &mut [u8], at: usize, sheet: &[u8], settlement: &Settlement) -> usize
    requires settlement { IsSettlement plain sheet.now settlement.now }
    requires fields_in_bounds { at + most_field * settlement.now.card.fields ≤ length out.old }
    ensures { Appended (most_field * settlement.now.card.fields) out.old at (fields_text sheet.now settlement.now.card.fields) out.new result }
{
    let fields = settlement.card.fields;
    let mut next = at;
    for i in 0..fields {
        next = put_settled_field(out, next, sheet, settlement, i);
    }
    next
}
