// The page of a sheet. A refused sheet has a page too, so that only a buffer that is too short is refused.
ghost use Rattle.std.specs.Prelude.{◌≡◌};
ghost use Rattle.exports.specs.Calls.{page_call};

use arrays::reply::refused;
use arrays::values::reply_value;
use page::write_page;

// The page, of any bytes and a buffer of any length.
#[unsafe(no_mangle)]
pub extern "C" fn limbatue_page(sheet: &[u8], out: &mut [u8], answer: &mut [u64]) -> u32
    ensures value { result ≡ (page_call sheet.now out.old answer.old).code }
    ensures out_after { out.new ≡ (page_call sheet.now out.old answer.old).lent }
    ensures answer_after { answer.new ≡ (page_call sheet.now out.old answer.old).values }
{
    if answer.len() < 1 {
        return 12;
    }
    match write_page(sheet, out) {
        Ok(length) => reply_value(length as u64, answer),
        Err(refusal) => refused(refusal),
    }
}
