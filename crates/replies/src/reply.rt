// What a call in words comes to.
ghost use Rattle.std.specs.Prelude.{◌≡◌, ◌≤◌, length};
ghost use Rattle.model.specs.Answer.{refused};
ghost use Rattle.refusals.specs.Refusals.{number_of, place_of};
ghost use Rattle.replies.specs.Told.{told, answered, no_reply, Tells};

use refusals::Refusal;
use verdicts::put_refused;

// How a call in words ended: answered, refused with its number and place, or words that are no call. No Result: each of the three has a text, and the numbers are what the programs say.
#[derive(Clone, Copy, Debug, PartialEq, Eq)]
pub enum Outcome {
    Answered,
    Refused { number: usize, place: usize },
    NoCall,
}

// How a call in words ended, and the length of the text that a lent buffer now begins with.
#[derive(Clone, Copy, Debug, PartialEq, Eq)]
pub struct Reply {
    pub outcome: Outcome,
    pub length: usize,
}

impl Reply {
    // A call that was answered, with a text of this length.
    pub fn answered(length: usize) -> Reply
        ensures { result ≡ answered length }
    {
        Reply {
            outcome: Outcome::Answered,
            length,
        }
    }

    // Words that are no call get no text.
    pub fn no_call() -> Reply
        ensures { result ≡ no_reply }
    {
        Reply {
            outcome: Outcome::NoCall,
            length: 0,
        }
    }
}

// `refused NUMBER PLACE`, of an answer that has them.
pub fn refuse_as(out: &mut [u8], number: usize, place: usize) -> Reply
    requires { 50 ≤ length out.old }
    ensures { Tells (told (refused number place)) out.old out.new result }
{
    let length = put_refused(out, 0, number, place);
    Reply {
        outcome: Outcome::Refused { number, place },
        length,
    }
}

// `refused NUMBER PLACE`, of a refusal.
pub fn refuse(out: &mut [u8], refusal: Refusal) -> Reply
    requires { 50 ≤ length out.old }
    ensures { Tells (told (refused (number_of refusal) (place_of refusal))) out.old out.new result }
{
    refuse_as(out, refusal.number(), refusal.place())
}
