// A session that is lent as an array, of what each desk has left.
ghost use Rattle.std.specs.Prelude.{[], ◌∷◌, ◌≡◌, ◌≤◌, length, take};
ghost use Rattle.model.specs.Answer.{written};
ghost use Rattle.arrays.specs.Session.{desks, short_walk};

use crate::reply::refused;
use walker::{DESKS, Session, check_walk};

// What each desk has left, of an array that has them all.
pub fn lent_session(session: &[u32]) -> Session
    requires { desks ≤ length session.now }
    ensures { result.left ≡ take desks session.now }
{
    let mut left = [0u32; DESKS];
    left.copy_from_slice(&session[..DESKS]);
    Session::open(left)
}

// The values of an answer and what each desk has left, to arrays that have room for them.
#[tactic(auto, unfolding(model::specs::Answer::written))]
pub fn reply_walk(
    word: u64,
    rounds: u64,
    drawn: u32,
    after: Session,
    session: &mut [u32],
    answer: &mut [u64],
) -> u32
    requires desks_in_bounds { desks ≤ length session.old }
    requires in_bounds { 3 ≤ length answer.old }
    ensures value { result ≡ 0 }
    ensures session_after { session.new ≡ written after.left session.old }
    ensures answer_after { answer.new ≡ written (word ∷ rounds ∷ drawn ∷ []) answer.old }
{
    copies::write(&after.left, session);
    copies::write(&[word, rounds, u64::from(drawn)], answer);
    0
}

// What is returned where an array has no room: a refusal of the other checks, else 12. Nothing is played.
pub fn short_walk(sheet: &[u8], first: usize, second: usize, limit: u64, desk: usize) -> u32
    ensures { result ≡ short_walk sheet.now first second limit desk }
{
    match check_walk(sheet, first, second, limit, desk) {
        Ok(_) => 12,
        Err(refusal) => refused(refusal),
    }
}
