// Settle with the marks.
ghost use Rattle.std.specs.Prelude.{◌≡◌};
ghost use Rattle.exports.specs.Calls.{settle_since_call};

use crate::settle::short_code;
use arrays::reply::refused;
use arrays::values::reply_value;
use filer::settle::settle_since;

// Settle with the marks (request 9 of document 02), of any bytes, and a table and a buffer for the marks of any length.
#[unsafe(no_mangle)]
pub extern "C" fn limbatue_settle_since(
    sheet: &[u8],
    table: &mut [u32],
    since: &mut [u32],
    answer: &mut [u64],
) -> u32
    ensures value { result ≡ (settle_since_call sheet.now table.old since.old answer.old).code }
    ensures table_after { table.new ≡ (settle_since_call sheet.now table.old since.old answer.old).lent.table }
    ensures since_after { since.new ≡ (settle_since_call sheet.now table.old since.old answer.old).lent.marks }
    ensures answer_after { answer.new ≡ (settle_since_call sheet.now table.old since.old answer.old).values }
{
    if answer.len() < 1 {
        return short_code(sheet);
    }
    match settle_since(sheet, table, since) {
        Ok(stage) => reply_value(stage as u64, answer),
        Err(refusal) => refused(refusal),
    }
}
