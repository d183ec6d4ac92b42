// The challenges to a pair of fields, `first` the first side's and `second` the second's, by number: the first side's by its lines, then the second's.
ghost use Rattle.std.specs.Prelude.{◌≡◌, ◌*◌, ◌≤◌, ◌<◌};
ghost use Rattle.model.specs.Field.{at};
ghost use Rattle.model.specs.Sheet.{line_of};
ghost use Rattle.sheet.specs.Reader.{Reads};
ghost use Rattle.moves.specs.Lines.{next_of};
ghost use Rattle.moves.specs.Following.{Follows};
ghost use Rattle.game.specs.Challenges.{challenge_of, first_line, second_line, may_challenge, may_reply};

use moves::follow::ENTRIES;
use moves::lines::{may_use, next_reply};
use sheet::Card;

// A part of the walk that is to be examined: the challenges that have the numbers from `from` up to `to`, or the replies by these lines, at a number of rounds and within an allowance.
#[derive(Drop)]
pub struct Part {
    pub rounds: u64,
    pub from: usize,
    pub to: usize,
    pub allowance: u32,
}

impl Part {
    // The part with these four numbers. A function: as literals the parts that challenge and reply hand on would take six lines each.
    pub fn new(rounds: u64, from: usize, to: usize, allowance: u32) -> Part
        ensures { result ≡ record { rounds = rounds; from = from; to = to; allowance = allowance } }
    {
        Part {
            rounds,
            from,
            to,
            allowance,
        }
    }
}

// Whether the side of a challenge may use its line.
fn may_challenge(
    sheet: &[u8],
    card: Card,
    number: usize,
    first: &[u32; 32],
    second: &[u32; 32],
) -> bool
    requires reads { Reads sheet.now card }
    requires number_bound { number < 2 * card.lines }
    ensures { result ≡ may_challenge (at first.now) (at second.now) (challenge_of sheet.now number) }
{
    let lines = card.lines;
    if number < lines {
        may_use(sheet, card, number, first)
    } else {
        may_use(sheet, card, number - lines, second)
    }
}

// The first challenge from `from` up to `to` whose side may use its line; `to` where there is none.
// No Option: what is left of a part is halved from this number up to `to`, and nothing is left where they are one.
pub fn next_challenge(
    sheet: &[u8],
    card: Card,
    from: usize,
    to: usize,
    first: &[u32; 32],
    second: &[u32; 32],
) -> usize
    requires reads { Reads sheet.now card }
    requires from_le_to { (from ≤ to) × (to ≤ 2 * card.lines) }
    ensures { result ≡ next_of (may_challenge (at first.now) (at second.now)) (challenge_of sheet.now) from to }
{
    if from < to {
        if may_challenge(sheet, card, from, first, second) {
            return from;
        }
        return search_challenge(sheet, card, from + 1, to, first, second);
    }
    to
}

// The same by a loop over all of them, for those after the first.
// Not inlined: in the frame of `challenge` every line that is passed over would cost a quarter more. `next_challenge` looks at the first one itself, so that no call is made where nearly every line may be used.
#[inline(never)]
fn search_challenge(
    sheet: &[u8],
    card: Card,
    from: usize,
    to: usize,
    first: &[u32; 32],
    second: &[u32; 32],
) -> usize
    requires reads { Reads sheet.now card }
    requires from_le_to { (from ≤ to) × (to ≤ 2 * card.lines) }
    ensures { result ≡ next_of (may_challenge (at first.now) (at second.now)) (challenge_of sheet.now) from to }
{
    for number in from..to {
        if may_challenge(sheet, card, number, first, second) {
            return number;
        }
    }
    to
}

// The first line of a part that is a reply of the other side to the challenge of a number; the part's end where none is.
pub fn next_answer(
    sheet: &[u8],
    card: Card,
    table: &[u16; ENTRIES],
    number: usize,
    part: Part,
    first: &[u32; 32],
    second: &[u32; 32],
) -> usize
    requires reads { Reads sheet.now card × Follows sheet.now table.now }
    requires number_bound { (number < 2 * card.lines) × (part.from ≤ part.to) × (part.to ≤ card.lines) }
    ensures { result ≡ next_of (may_reply (at first.now) (at second.now) (challenge_of sheet.now number)) (line_of sheet.now) part.from part.to }
{
    let lines = card.lines;
    if number < lines {
        next_reply(sheet, card, table, number, part.from, part.to, second)
    } else {
        next_reply(
            sheet,
            card,
            table,
            number - lines,
            part.from,
            part.to,
            first,
        )
    }
}

// The line that the first side uses in a round: the challenge's where it challenges, else the reply.
pub fn first_line(lines: usize, number: usize, answer: usize) -> usize
    ensures { result ≡ first_line lines number answer }
{
    if number < lines { number } else { answer }
}

// The line that the second side uses in a round: the reply where the first side challenges, else the challenge's.
pub fn second_line(lines: usize, number: usize, answer: usize) -> usize
    ensures { result ≡ second_line lines number answer }
{
    if number < lines {
        answer
    } else {
        number - lines
    }
}
