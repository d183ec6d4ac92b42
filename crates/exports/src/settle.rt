// Settle.
ghost use Rattle.std.specs.Prelude.{◌≡◌};
ghost use Rattle.exports.specs.Calls.{settle_call, short_code};

use acceptance::accept::accept;
use arrays::reply::refused;
use arrays::values::reply_value;
use filer::settle::settle_sheet;

// What Settle returns, with the marks or without, where the answer array has no room: a refusal of the sheet, else 12. Nothing is settled.
pub fn short_code(sheet: &[u8]) -> u32
    ensures { result ≡ short_code sheet.now }
{
    match accept(sheet) {
        Ok(_) => 12,
        Err(refusal) => refused(refusal),
    }
}

// Settle, of any bytes and a table of any length.
#[unsafe(no_mangle)]
pub extern "C" fn limbatue_settle(sheet: &[u8], table: &mut [u32], answer: &mut [u64]) -> u32
    ensures value { result ≡ (settle_call sheet.now table.old answer.old).code }
    ensures table_after { table.new ≡ (settle_call sheet.now table.old answer.old).lent }
    ensures answer_after { answer.new ≡ (settle_call sheet.now table.old answer.old).values }
{
    if answer.len() < 1 {
        return short_code(sheet);
    }
    match settle_sheet(sheet, table) {
        Ok(stage) => reply_value(stage as u64, answer),
        Err(refusal) => refused(refusal),
    }
}
