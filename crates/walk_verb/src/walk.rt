// walk I J LIMIT ALLOWANCE, and a desk.
ghost use Rattle.std.specs.Prelude.{◌≡◌, ◌≤◌, get_or, length};
ghost use Rattle.walker.specs.Answers.{answer_of};
ghost use Rattle.replies.specs.Told.{Tells, end_of};
ghost use Rattle.replies.specs.Texts.{most_text};
ghost use Rattle.walk_verb.specs.Texts.{given_to};
ghost use Rattle.walk_verb.specs.Calls.{walk_told};

use replies::{Outcome, Reply};
use walk_text::put_walk;
use walker::{Answer, DESKS, Session, walk};

// The largest number of 32 bits.
const NARROW: u64 = 4_294_967_295;

// How a walk ended.
fn outcome_of(answer: Answer) -> Outcome
    ensures { result ≡ end_of (answer_of answer) }
{
    match answer {
        Answer::Apart { rounds: _ } => Outcome::Answered,
        Answer::Together => Outcome::Answered,
        Answer::Spent => Outcome::Answered,
        Answer::Refused { number, place } => Outcome::Refused { number, place },
    }
}

// The desk that walks: the fifth number, or desk 0 where it is not given.
fn desk_of(numbers: &[u64]) -> usize
    ensures { result ≡ get_or numbers.now 4 0 }
{
    numbers.get(4).copied().unwrap_or(0) as usize
}

// A session in which this desk has the allowance and the others have none.
fn session_of(desk: usize, allowance: u32) -> Session
    ensures { result.left ≡ given_to desk allowance }
{
    let mut allowances = [0u32; DESKS];
    if desk < DESKS {
        allowances[desk] = allowance;
    }
    Session::open(allowances)
}

// The walk of two fields by a desk, in a session that gives it the allowance.
pub fn walk_fields(sheet: &[u8], numbers: &[u64], out: &mut [u8]) -> Reply
    requires { most_text ≤ length out.old }
    ensures { Tells (walk_told sheet.now numbers.now) out.old out.new result }
{
    if numbers.len() < 4 {
        return Reply::no_call();
    }
    if 5 < numbers.len() {
        return Reply::no_call();
    }
    let allowance = numbers[3];
    if NARROW < allowance {
        return Reply::no_call();
    }
    let desk = desk_of(numbers);
    let session = session_of(desk, allowance as u32);
    let walked = walk(
        sheet,
        numbers[0] as usize,
        numbers[1] as usize,
        numbers[2],
        desk,
        session,
    );
    let outcome = outcome_of(walked.answer);
    let length = put_walk(out, 0, walked);
    Reply { outcome, length }
}
