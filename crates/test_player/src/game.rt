// The round game, played, plain or finer. Every challenge is tried against every reply, up to the first that holds; in the finer game the totals of a pair are
// looked at first. Each pair that is looked at takes one from a budget.
ghost use Rattle.std.specs.Prelude.{[], ◌∷◌, ◌≡◌, ◌+◌, ◌≤◌, ◌<◌};
ghost use Rattle.model.specs.Field.{at};
ghost use Rattle.model.specs.Sheet.{kind_count, line_of, card_of};
ghost use Rattle.model.specs.Walk.{try_replies, try_challenges};
ghost use Rattle.theory.specs.Counted.{cut};
ghost use Rattle.second_reader.specs.Fields.{Fits};
ghost use Rattle.test_player.specs.Played.{counted_of, challenger, sense_of, examine_in, leaves_in, tried, parting_of};

use crate::totals::shares_total;
use second_reader::{field, field_after, fields, kinds, lines, may_reply, may_use};

// A part of the game: whether it holds, with what is left of the budget, or spent where it has more pairs than the budget. Three cases, two with a value:
// neither an Option nor a Result has them.
#[derive(Drop)]
pub enum Play {
    Holds(usize),
    Fails(usize),
    Spent,
}

// What was found of a pair, up to the limit asked for. Parted: the first number of rounds that parts it, 0 where the totals differ at the start; it holds at all
// below. Held: it holds at every number of rounds up to this, the limit. Out of budget, out of bounds: it holds up to this; the next was not played out, since
// the budget ends before it does, or lies past what the player plays. Fields that are not read are out of bounds at 0, and their totals are not looked at.
#[derive(Clone, Copy)]
pub enum Tried {
    Parted(u64),
    Held(u64),
    OutOfBudget(u64),
    OutOfBounds(u64),
}

// A side's turn to challenge: whether the totals are looked at, the rounds of the pairs that replies leave, and whether it is the second side that challenges.
#[derive(Clone, Copy)]
struct Turn {
    totals: bool,
    rounds: u64,
    second: bool,
}

// The line as the only reply of `other` to the challenge by the line `challenge`, which left `used`: the pair that it leaves. "The first side stays first":
// where the second side challenged, `used` is the second side.
#[cycle(pair)]
fn reply_holds(
    sheet: &[u8],
    turn: Turn,
    challenge: usize,
    line: usize,
    used: &[usize; 32],
    other: &[usize; 32],
    budget: usize,
) -> Play
    requires sheet_bound { (kind_count sheet.now ≤ 32) × (challenge < 65536) × (line < 65536) }
    requires fits { Fits sheet.now turn.rounds used.now × Fits sheet.now (turn.rounds + 1) other.now }
    ensures { counted_of result ≡ cut budget (try_replies (leaves_in (sense_of turn.totals) (challenger turn.second) (card_of sheet.now) turn.rounds) (line_of sheet.now challenge)
        (at used.now) (at other.now) (line_of sheet.now line ∷ [])) }
{
    if may_reply(sheet, line, challenge, other) {
        let after = field_after(sheet, line, other);
        if turn.second {
            pair_holds(sheet, turn.totals, turn.rounds, &after, used, budget)
        } else {
            pair_holds(sheet, turn.totals, turn.rounds, used, &after, budget)
        }
    } else {
        Play::Fails(budget)
    }
}

// "replies in line order up to the first that holds"
#[cycle(pair)]
fn some_reply(
    sheet: &[u8],
    turn: Turn,
    challenge: usize,
    used: &[usize; 32],
    other: &[usize; 32],
    budget: usize,
) -> Play
    requires sheet_bound { (kind_count sheet.now ≤ 32) × (challenge < 65536) }
    requires fits { Fits sheet.now turn.rounds used.now × Fits sheet.now (turn.rounds + 1) other.now }
    ensures { counted_of result ≡ cut budget (try_replies (leaves_in (sense_of turn.totals) (challenger turn.second) (card_of sheet.now) turn.rounds) (line_of sheet.now challenge)
        (at used.now) (at other.now) (card_of sheet.now).lines) }
{
    let mut left = budget;
    for line in 0..lines(sheet) {
        match reply_holds(sheet, turn, challenge, line, used, other, left) {
            Play::Holds(rest) => {
                return Play::Holds(rest);
            }
            Play::Fails(rest) => {
                left = rest;
            }
            Play::Spent => {
                return Play::Spent;
            }
        }
    }
    Play::Fails(left)
}

// The line as the only challenge of `field`, if it may use it, against every reply of `other`.
#[cycle(pair)]
fn challenge_holds(
    sheet: &[u8],
    turn: Turn,
    line: usize,
    field: &[usize; 32],
    other: &[usize; 32],
    budget: usize,
) -> Play
    requires sheet_bound { (kind_count sheet.now ≤ 32) × (line < 65536) }
    requires fits { Fits sheet.now (turn.rounds + 1) field.now × Fits sheet.now (turn.rounds + 1) other.now }
    ensures { counted_of result ≡ cut budget (try_challenges (leaves_in (sense_of turn.totals) (challenger turn.second) (card_of sheet.now) turn.rounds) (card_of sheet.now).lines
        (at field.now) (at other.now) (line_of sheet.now line ∷ [])) }
{
    if may_use(sheet, line, field) {
        let used = field_after(sheet, line, field);
        some_reply(sheet, turn, line, &used, other, budget)
    } else {
        Play::Holds(budget)
    }
}

// "the first challenge with no such reply ends the pair": the challenges of `field` in line order.
#[cycle(pair)]
fn every_challenge(
    sheet: &[u8],
    turn: Turn,
    field: &[usize; 32],
    other: &[usize; 32],
    budget: usize,
) -> Play
    requires sheet_bound { kind_count sheet.now ≤ 32 }
    requires fits { Fits sheet.now (turn.rounds + 1) field.now × Fits sheet.now (turn.rounds + 1) other.now }
    ensures { counted_of result ≡ cut budget (try_challenges (leaves_in (sense_of turn.totals) (challenger turn.second) (card_of sheet.now) turn.rounds) (card_of sheet.now).lines
        (at field.now) (at other.now) (card_of sheet.now).lines) }
{
    let mut left = budget;
    for line in 0..lines(sheet) {
        match challenge_holds(sheet, turn, line, field, other, left) {
            Play::Holds(rest) => {
                left = rest;
            }
            Play::Fails(rest) => {
                return Play::Fails(rest);
            }
            Play::Spent => {
                return Play::Spent;
            }
        }
    }
    Play::Holds(left)
}

// "A pair examined at r rounds counts 1. At 0 rounds it holds. Otherwise a challenge at r rounds is tried against replies at r - 1: lines of the first
// side in line order, then of the second." In the finer game "a challenger also wins as soon as the totals differ".
#[cycle(pair)]
fn pair_holds(
    sheet: &[u8],
    totals: bool,
    rounds: u64,
    first: &[usize; 32],
    second: &[usize; 32],
    budget: usize,
) -> Play
    requires sheet_bound { kind_count sheet.now ≤ 32 }
    requires fits { Fits sheet.now rounds first.now × Fits sheet.now rounds second.now }
    ensures { counted_of result ≡ cut budget (examine_in (sense_of totals) (card_of sheet.now) rounds (at first.now) (at second.now)) }
{
    if budget == 0 {
        return Play::Spent;
    }
    if !shares_total(sheet, totals, first, second) {
        return Play::Fails(budget - 1);
    }
    if rounds == 0 {
        return Play::Holds(budget - 1);
    }
    let first_turn = Turn {
        totals,
        rounds: rounds - 1,
        second: false,
    };
    let second_turn = Turn {
        totals,
        rounds: rounds - 1,
        second: true,
    };
    match every_challenge(sheet, first_turn, first, second, budget - 1) {
        Play::Holds(left) => every_challenge(sheet, second_turn, second, first, left),
        Play::Fails(left) => Play::Fails(left),
        Play::Spent => Play::Spent,
    }
}

// More rounds are not played, which bounds the depth of the calls.
const ROUNDS: u64 = 200;

// The pair at 1, 2, .. rounds, up to a limit, with so many pairs at most in all.
fn try_rounds(
    sheet: &[u8],
    totals: bool,
    limit: u64,
    first: &[usize; 32],
    second: &[usize; 32],
    budget: usize,
) -> Tried
    requires sheet_bound { kind_count sheet.now ≤ 32 }
    requires fits { Fits sheet.now 200 first.now × Fits sheet.now 200 second.now }
    ensures { result ≡ tried (sense_of totals) (card_of sheet.now) (at first.now) (at second.now) budget 0 limit }
{
    let mut left = budget;
    for rounds in 0..limit {
        if ROUNDS <= rounds {
            return Tried::OutOfBounds(rounds);
        }
        match pair_holds(sheet, totals, rounds + 1, first, second, left) {
            Play::Holds(rest) => {
                left = rest;
            }
            Play::Fails(_) => {
                return Tried::Parted(rounds + 1);
            }
            Play::Spent => {
                return Tried::OutOfBudget(rounds);
            }
        }
    }
    Tried::Held(limit)
}

// Two fields of the sheet at 1, 2, .. rounds, up to a limit, with so many pairs at most in all. Where the totals are looked at, so they are at the start. No
// sheet of more than 32 kinds is played, and no field that it does not have.
pub fn parting(
    sheet: &[u8],
    totals: bool,
    limit: u64,
    first: usize,
    second: usize,
    budget: usize,
) -> Tried
    ensures { result ≡ parting_of (sense_of totals) sheet.now limit first second budget }
{
    if 32 < kinds(sheet) {
        return Tried::OutOfBounds(0);
    }
    let count = fields(sheet);
    if count <= first {
        return Tried::OutOfBounds(0);
    }
    if count <= second {
        return Tried::OutOfBounds(0);
    }
    let first_field = field(sheet, first);
    let second_field = field(sheet, second);
    if !shares_total(sheet, totals, &first_field, &second_field) {
        return Tried::Parted(0);
    }
    try_rounds(sheet, totals, limit, &first_field, &second_field, budget)
}
