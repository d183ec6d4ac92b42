// A pair of fields at a number of rounds. "A challenge at r rounds is tried against replies at r - 1": challenge and reply call each other,
// with fewer rounds left or fewer lines left. The field `first` is the first side's and `second` the second's; `table` is that of the lines that follow.
// The stack: after a line, challenge and reply go on with one half of what is left and then with the other, so that with 256 lines, which are 512
// challenges, at most 10 calls of challenge and 9 of reply stand at once in a round that goes on, and 11 in the last, whether or not the back end
// removes a call: at most 7 × (10 + 9) + 11 = 144 calls in 8 rounds. The two fields of the next pair live in the frame of reply. The parts that a
// call hands on stand in one local, `later`, one after another, so that a frame has room for one. `./stack` measures it on the deepest sheet
// (measurements/deep.sheet: 256 lines of one code, and the last line of 256 goes on in each round): 81 KB, 33 KB of them for the table.
ghost use Rattle.std.specs.Prelude.{◌≡◌, ◌+◌, ◌-◌, ◌*◌, ◌≤◌, ◌<◌};
ghost use Rattle.model.specs.Field.{at};
ghost use Rattle.model.specs.Limits.{most_rounds};
ghost use Rattle.model.specs.Sheet.{line_of, card_of};
ghost use Rattle.theory.specs.Counted.{cut};
ghost use Rattle.sheet.specs.Reader.{Reads};
ghost use Rattle.moves.specs.Lines.{Bounded, between};
ghost use Rattle.moves.specs.Following.{Follows};
ghost use Rattle.game.specs.Rounds.{counted_of};
ghost use Rattle.game.specs.Challenges.{challenge_of, replied, challenged};

use crate::challenges::{Part, first_line, next_answer, next_challenge, second_line};
use moves::fire::use_line;
use moves::follow::ENTRIES;
use sheet::Card;

// What a part of the walk comes to: whether it holds, with what is left of the allowance, or spent where its count passes the allowance.
// An enum of its own: challenge goes on where a part holds and reply where it fails, so that neither case is the error of a Result.
#[derive(Drop)]
pub enum Examined {
    Holds(u32),
    Fails(u32),
    Spent,
}

// The challenges of a part, each tried against replies at a round less.
#[cycle(challenge_reply)]
pub fn challenge(
    sheet: &[u8],
    card: Card,
    table: &[u16; ENTRIES],
    part: Part,
    first: &[u32; 32],
    second: &[u32; 32],
) -> Examined
    requires reads { Reads sheet.now card × Follows sheet.now table.now }
    requires rounds_nonzero { (0 < part.rounds) × (part.rounds ≤ most_rounds) × (part.from ≤ part.to) × (part.to ≤ 2 * card.lines) }
    requires bounded { Bounded part.rounds first.now × Bounded part.rounds second.now }
    ensures { counted_of result ≡ cut part.allowance (challenged (at first.now) (at second.now) (card_of sheet.now).lines (part.rounds - 1)
        (between (challenge_of sheet.now) part.from part.to)) }
{
    let rounds = part.rounds;
    let to = part.to;
    let number = next_challenge(sheet, card, part.from, to, first, second);
    if number == to {
        return Examined::Holds(part.allowance);
    }
    let next = number + 1;
    let middle = next + (to - next) / 2;
    let mut later = Part::new(rounds - 1, 0, card.lines, part.allowance);
    match reply(sheet, card, table, number, later, first, second) {
        Examined::Holds(left) => {
            later = Part::new(rounds, next, middle, left);
            match challenge(sheet, card, table, later, first, second) {
                Examined::Holds(rest) => {
                    later = Part::new(rounds, middle, to, rest);
                    challenge(sheet, card, table, later, first, second)
                }
                Examined::Fails(rest) => Examined::Fails(rest),
                Examined::Spent => Examined::Spent,
            }
        }
        Examined::Fails(left) => Examined::Fails(left),
        Examined::Spent => Examined::Spent,
    }
}

// The replies of a part to the challenge of that number. Each leaves a pair at the part's rounds, which counts 1;
// "at 0 rounds it holds", and otherwise it holds where all challenges to it do.
#[cycle(challenge_reply)]
fn reply(
    sheet: &[u8],
    card: Card,
    table: &[u16; ENTRIES],
    number: usize,
    part: Part,
    first: &[u32; 32],
    second: &[u32; 32],
) -> Examined
    requires reads { Reads sheet.now card × Follows sheet.now table.now }
    requires rounds_lt_most_rounds { (part.rounds < most_rounds) × (number < 2 * card.lines) × (part.from ≤ part.to) × (part.to ≤ card.lines) }
    requires bounded { Bounded (part.rounds + 1) first.now × Bounded (part.rounds + 1) second.now }
    ensures { counted_of result ≡ cut part.allowance (replied (at first.now) (at second.now) (card_of sheet.now).lines part.rounds
        (challenge_of sheet.now number) (between (line_of sheet.now) part.from part.to)) }
{
    let rounds = part.rounds;
    let allowance = part.allowance;
    let to = part.to;
    let answer = next_answer(sheet, card, table, number, part, first, second);
    if answer == to {
        return Examined::Fails(allowance);
    }
    if allowance == 0 {
        return Examined::Spent;
    }
    if rounds == 0 {
        return Examined::Holds(allowance - 1);
    }
    let lines = card.lines;
    let mut one = *first;
    use_line(sheet, card, first_line(lines, number, answer), &mut one);
    let mut other = *second;
    use_line(sheet, card, second_line(lines, number, answer), &mut other);
    let next = answer + 1;
    let middle = next + (to - next) / 2;
    let mut later = Part::new(rounds, 0, 2 * lines, allowance - 1);
    match challenge(sheet, card, table, later, &one, &other) {
        Examined::Holds(left) => Examined::Holds(left),
        Examined::Fails(left) => {
            later = Part::new(rounds, next, middle, left);
            match reply(sheet, card, table, number, later, first, second) {
                Examined::Holds(rest) => Examined::Holds(rest),
                Examined::Fails(rest) => {
                    later = Part::new(rounds, middle, to, rest);
                    reply(sheet, card, table, number, later, first, second)
                }
                Examined::Spent => Examined::Spent,
            }
        }
        Examined::Spent => Examined::Spent,
    }
}
