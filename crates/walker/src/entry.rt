// The walk as it is called: the checks, the numbers of rounds one after another, and the session.
ghost use Rattle.std.specs.Prelude.{◌≡◌, ◌≤◌, IfOk};
ghost use Rattle.model.specs.Field.{at};
ghost use Rattle.model.specs.Limits.{most_rounds, last_desk};
ghost use Rattle.model.specs.Refusal.{clear, first_of, walk_checks};
ghost use Rattle.model.specs.Sheet.{card_of};
ghost use Rattle.model.specs.Walk as model;
ghost use Rattle.model.specs.Answer.{within, walk_of};
ghost use Rattle.theory.specs.Counted.{cut};
ghost use Rattle.game.specs.Rounds.{counted_of};
ghost use Rattle.sheet.specs.Reader.{Reads};
ghost use Rattle.moves.specs.Lines.{Bounded};
ghost use Rattle.moves.specs.Following.{Follows};
ghost use Rattle.refusals.specs.Refusals.{number_of, place_of, finding_of};
ghost use Rattle.walker.specs.Answers.{answer_of, session_of, walked_of, refused_of, drawn_of, spent_of, Plays};

use game::challenges::Part;
use game::rounds::{Examined, challenge};
use moves::follow::{ENTRIES, fill_table};
use refusals::Refusal;
use sheet::Card;
use validation::{check_fields, check_sheet};

// "eight desks, 0 to 7"
pub const DESKS: usize = 8;

// "A session now has eight desks": what each of them has left of its allowance.
#[derive(Clone, Copy, Debug, PartialEq, Eq)]
pub struct Session {
    pub left: [u32; DESKS],
}

impl Session {
    // "each given an allowance of its own once, when the session opens"
    pub fn open(allowances: [u32; DESKS]) -> Session
        ensures { result.left ≡ allowances }
    {
        Session { left: allowances }
    }
}

// "answers apart with the first number of rounds that parts the pair, together, or spent"; a refusal has its number and place.
// An enum of its own and no Result: what a walk answers is promised case by case, and a refusal as the number and place that the caller is told.
#[derive(Clone, Copy, Debug, PartialEq, Eq)]
pub enum Answer {
    Apart { rounds: u64 },
    Together,
    Spent,
    Refused { number: usize, place: usize },
}

// The answer, the pairs drawn from the desk's allowance, and the session afterwards.
#[derive(Clone, Copy, Debug, PartialEq, Eq)]
pub struct Walked {
    pub answer: Answer,
    pub drawn: u32,
    pub session: Session,
}

// The answer of a walk that is not refused, and the pairs that it draws.
#[derive(Clone, Copy, Debug, PartialEq, Eq)]
struct Played {
    answer: Answer,
    drawn: u32,
}

// "a round limit 0 to 8"
const ROUNDS: u64 = 8;

// "A refused call leaves .. the session as [it was]."
fn refuse(refusal: Refusal, session: Session) -> Walked
    ensures { walked_of result ≡ refused_of (number_of refusal) (place_of refusal) (session_of session) }
{
    Walked {
        answer: Answer::Refused {
            number: refusal.number(),
            place: refusal.place(),
        },
        drawn: 0,
        session,
    }
}

// "The walk's count and its spent rule read the named desk's allowance": what is left of it.
fn left_of(desk: usize, session: Session) -> u32
    requires { desk ≤ last_desk }
    ensures { result ≡ at session.left desk }
{
    session.left[desk]
}

// "A walk draws its count": of its desk's allowance, and of no other.
fn draw(played: Played, desk: usize, session: Session) -> Walked
    requires desk_le_last_desk { desk ≤ last_desk }
    requires drawn_bound { played.drawn ≤ at session.left desk }
    ensures { walked_of result ≡ drawn_of (answer_of played.answer) played.drawn desk (session_of session) }
{
    let mut left = session.left;
    left[desk] -= played.drawn;
    Walked {
        answer: played.answer,
        drawn: played.drawn,
        session: Session { left },
    }
}

// "Spent .. draws all of it": of the allowance left.
fn spend(allowance: u32) -> Played
    ensures { Plays result (spent_of allowance) }
{
    Played {
        answer: Answer::Spent,
        drawn: allowance,
    }
}

// The pair at a number of rounds, where so much is left: the pair itself counts 1, and then its challenges.
fn try_pair(
    sheet: &[u8],
    card: Card,
    table: &[u16; ENTRIES],
    first: &[u32; 32],
    second: &[u32; 32],
    rounds: u64,
    left: u32,
) -> Examined
    requires reads { Reads sheet.now card × Follows sheet.now table.now }
    requires rounds_in_bounds { (1 ≤ rounds) × (rounds ≤ most_rounds) }
    requires bounded { Bounded most_rounds first.now × Bounded most_rounds second.now }
    ensures { counted_of result ≡ cut left (model.examine (card_of sheet.now).lines rounds (at first.now) (at second.now)) }
{
    if left == 0 {
        return Examined::Spent;
    }
    let challenges = 2 * card.lines;
    let part = Part::new(rounds, 0, challenges, left - 1);
    challenge(sheet, card, table, part, first, second)
}

// "It tries 1, 2, up to the limit", each time from the pair itself, which counts 1.
fn try_rounds(
    sheet: &[u8],
    card: Card,
    table: &[u16; ENTRIES],
    first: &[u32; 32],
    second: &[u32; 32],
    limit: u64,
    allowance: u32,
) -> Played
    requires reads { Reads sheet.now card × Follows sheet.now table.now }
    requires limit_le_most_rounds { limit ≤ most_rounds }
    requires bounded { Bounded most_rounds first.now × Bounded most_rounds second.now }
    ensures { Plays result (within allowance (model.walk (card_of sheet.now).lines (at first.now) (at second.now) 1 limit)) }
{
    let mut left = allowance;
    for rounds in 1..=limit {
        match try_pair(sheet, card, table, first, second, rounds, left) {
            Examined::Holds(rest) => left = rest,
            Examined::Fails(rest) => {
                return Played {
                    answer: Answer::Apart { rounds },
                    drawn: allowance - rest,
                };
            }
            Examined::Spent => return spend(allowance),
        }
    }
    Played {
        answer: Answer::Together,
        drawn: allowance - left,
    }
}

// "Checks run from top to bottom": the desk, 1 to 8 of the sheet, the two field numbers and the round limit.
pub fn check_walk(
    sheet: &[u8],
    first: usize,
    second: usize,
    limit: u64,
    desk: usize,
) -> Result<Card, Refusal>
    ensures found { finding_of result ≡ first_of (walk_checks sheet.now first second limit desk) }
    ensures read { IfOk result (λ card. Reads sheet.now card) }
{
    if DESKS <= desk {
        return Err(Refusal::Desk);
    }
    let card = check_sheet(sheet)?;
    check_fields(Ok(card), first, second)?;
    if ROUNDS < limit {
        return Err(Refusal::RoundLimit);
    }
    Ok(card)
}

// The walk on a card that was read, of a call that passed its checks: the fields are read, and the table of the lines that follow is made, 33 KB in this frame.
fn walk_card(
    sheet: &[u8],
    card: Card,
    first: usize,
    second: usize,
    limit: u64,
    desk: usize,
    session: Session,
) -> Walked
    requires reads { Reads sheet.now card }
    requires passed { first_of (walk_checks sheet.now first second limit desk) ≡ clear }
    ensures { walked_of result ≡ walk_of sheet.now first second limit desk (session_of session) }
{
    let first_field = card.field(sheet, first);
    let second_field = card.field(sheet, second);
    let mut table = [0u16; ENTRIES];
    fill_table(sheet, card, &mut table);
    let allowance = left_of(desk, session);
    let played = try_rounds(
        sheet,
        card,
        &table,
        &first_field,
        &second_field,
        limit,
        allowance,
    );
    draw(played, desk, session)
}

// Walk: "two fields, a round limit 0 to 8, a session", and its desk: "16 a desk over 7, place 0, before the header is looked at".
pub fn walk(
    sheet: &[u8],
    first: usize,
    second: usize,
    limit: u64,
    desk: usize,
    session: Session,
) -> Walked
    ensures { walked_of result ≡ walk_of sheet.now first second limit desk (session_of session) }
{
    match check_walk(sheet, first, second, limit, desk) {
        Ok(card) => walk_card(sheet, card, first, second, limit, desk, session),
        Err(refusal) => refuse(refusal, session),
    }
}
