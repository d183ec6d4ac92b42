// Compare and finer Compare.
ghost use Rattle.std.specs.Prelude.{◌≡◌, ℕ, ◌^◌, ◌<◌};
ghost use Rattle.filer.specs.Answers.{verdict_of};
ghost use Rattle.filer.specs.declared.answers.Verdict.TheVariants.{Refused};
ghost use Rattle.arrays.specs.Reply.{code_of};
ghost use Rattle.exports.specs.Calls.{verdict_call, compare_call, finer_compare_call};

use arrays::reply::refusal_code;
use arrays::values::{reply_different, reply_same};
use filer::Verdict;
use filer::compare::{compare, finer_compare};

// Compare, of any bytes and any two field numbers.
#[unsafe(no_mangle)]
pub extern "C" fn limbatue_compare(
    sheet: &[u8],
    first: usize,
    second: usize,
    answer: &mut [u64],
) -> u32
    ensures value { result ≡ (compare_call sheet.now first second answer.old).code }
    ensures answer_after { answer.new ≡ (compare_call sheet.now first second answer.old).values }
{
    reply_verdict(compare(sheet, first, second), answer)
}

// Finer Compare, of any bytes and any two field numbers.
#[unsafe(no_mangle)]
pub extern "C" fn limbatue_finer_compare(
    sheet: &[u8],
    first: usize,
    second: usize,
    answer: &mut [u64],
) -> u32
    ensures value { result ≡ (finer_compare_call sheet.now first second answer.old).code }
    ensures answer_after { answer.new ≡ (finer_compare_call sheet.now first second answer.old).values }
{
    reply_verdict(finer_compare(sheet, first, second), answer)
}

// A verdict, whose refusal, if it is one, fits the number returned.
fn reply_verdict(verdict: Verdict, answer: &mut [u64]) -> u32
    requires { (number place : ℕ) → verdict ≡ Refused number place → code_of number place < 2 ^ 32 }
    ensures value { result ≡ (verdict_call (verdict_of verdict) answer.old).code }
    ensures answer_after { answer.new ≡ (verdict_call (verdict_of verdict) answer.old).values }
{
    match verdict {
        Verdict::Same => reply_same(answer),
        Verdict::Different { stage, rounds } => reply_different(stage, rounds, answer),
        Verdict::Refused { number, place } => refusal_code(number, place),
    }
}
