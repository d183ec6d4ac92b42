// Shelf field.
ghost use Rattle.std.specs.Prelude.{◌≡◌};
ghost use Rattle.exports.specs.Calls.{shelf_field_call};

use arrays::reply::refused;
use numbering::field::shelf_field;

// Shelf field, of any bytes, any size, any number and a buffer of any length.
#[unsafe(no_mangle)]
pub extern "C" fn limbatue_shelf_field(
    sheet: &[u8],
    size: usize,
    number: u64,
    counts: &mut [u16],
) -> u32
    ensures value { result ≡ (shelf_field_call sheet.now size number counts.old).code }
    ensures counts_after { counts.new ≡ (shelf_field_call sheet.now size number counts.old).lent }
{
    match shelf_field(sheet, size, number, counts) {
        Ok(()) => 0,
        Err(refusal) => refused(refusal),
    }
}
