// Walk. The session is an array of the caller's, of what each desk has left; the call lowers its desk's by what it draws.
ghost use Rattle.std.specs.Prelude.{◌≡◌};
ghost use Rattle.exports.specs.Calls.{walk_call};

use arrays::reply::refusal_code;
use arrays::session::{lent_session, reply_walk, short_walk};
use walker::{Answer, DESKS, walk};

// Walk, of any bytes, any two field numbers, any round limit, any desk and arrays of any length.
#[unsafe(no_mangle)]
pub extern "C" fn limbatue_walk(
    sheet: &[u8],
    first: usize,
    second: usize,
    limit: u64,
    desk: usize,
    session: &mut [u32],
    answer: &mut [u64],
) -> u32
    ensures value { result ≡ (walk_call sheet.now first second limit desk session.old answer.old).code }
    ensures session_after { session.new ≡ (walk_call sheet.now first second limit desk session.old answer.old).lent }
    ensures answer_after { answer.new ≡ (walk_call sheet.now first second limit desk session.old answer.old).values }
{
    if session.len() < DESKS {
        return short_walk(sheet, first, second, limit, desk);
    }
    if answer.len() < 3 {
        return short_walk(sheet, first, second, limit, desk);
    }
    let walked = walk(sheet, first, second, limit, desk, lent_session(session));
    let drawn = walked.drawn;
    let after = walked.session;
    match walked.answer {
        Answer::Together => reply_walk(0, 0, drawn, after, session, answer),
        Answer::Apart { rounds } => reply_walk(1, rounds, drawn, after, session, answer),
        Answer::Spent => reply_walk(2, 0, drawn, after, session, answer),
        Answer::Refused { number, place } => refusal_code(number, place),
    }
}
