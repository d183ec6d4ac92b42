// Shelf number.
ghost use Rattle.std.specs.Prelude.{◌≡◌};
ghost use Rattle.exports.specs.Calls.{shelf_number_call};

use arrays::reply::refused;
use arrays::values::reply_shelved;
use numbering::number::shelf_number;

// Shelf number, of any bytes and any field number.
#[unsafe(no_mangle)]
pub extern "C" fn limbatue_shelf_number(sheet: &[u8], field: usize, answer: &mut [u64]) -> u32
    ensures value { result ≡ (shelf_number_call sheet.now field answer.old).code }
    ensures answer_after { answer.new ≡ (shelf_number_call sheet.now field answer.old).values }
{
    match shelf_number(sheet, field) {
        Ok(shelved) => reply_shelved(shelved.size, shelved.number, answer),
        Err(refusal) => refused(refusal),
    }
}
