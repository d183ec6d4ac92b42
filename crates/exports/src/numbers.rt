// A sheet's numbers of kinds, codes, lines and fields.
ghost use Rattle.std.specs.Prelude.{◌≡◌};
ghost use Rattle.exports.specs.Calls.{numbers_call};

use arrays::reply::refused;
use arrays::values::reply_card;
use validation::check_sheet;

// The numbers of any bytes that pass 1 to 8.
#[unsafe(no_mangle)]
pub extern "C" fn limbatue_numbers(sheet: &[u8], answer: &mut [u64]) -> u32
    ensures value { result ≡ (numbers_call sheet.now answer.old).code }
    ensures answer_after { answer.new ≡ (numbers_call sheet.now answer.old).values }
{
    match check_sheet(sheet) {
        Ok(card) => reply_card(card, answer),
        Err(refusal) => refused(refusal),
    }
}
