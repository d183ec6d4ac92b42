// Row's check. C cannot be handed a part of a table: the answer says where the row stands.
ghost use Rattle.std.specs.Prelude.{◌≡◌};
ghost use Rattle.exports.specs.Calls.{row_call};

use arrays::reply::refused;
use arrays::values::reply_row;
use filer::row::row_check;

// Row's check, of a table of any length, any n and any kind.
#[unsafe(no_mangle)]
pub extern "C" fn limbatue_row_check(
    table: &[u32],
    kinds: usize,
    kind: usize,
    answer: &mut [u64],
) -> u32
    ensures value { result ≡ (row_call kinds kind table.now answer.old).code }
    ensures answer_after { answer.new ≡ (row_call kinds kind table.now answer.old).values }
{
    match row_check(table, kinds, kind) {
        Ok(()) => reply_row(kinds, kind, answer),
        Err(refusal) => refused(refusal),
    }
}
