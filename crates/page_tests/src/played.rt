// The filer's verdicts and prime forms, plain and finer, against a second, slow player of the round game: on the stored sheets, and on random small ones. Of a random
// sheet the reached part is played.
ghost use Rattle.std.specs.Prelude.{◌≤◌};
ghost use Rattle.tables.specs.Senses.{sense_of};
ghost use Rattle.filer.specs.Settlement.{IsSettlement};

use crate::stored::{argument_count, name_of, read_stored};
use filer::Verdict;
use filer::compare::compare_accepted;
use filer::form::form_accepted;
use filer::settlement::{Settlement, settle_once};
use std::io::Write;
use std::rt::{Env, Files};
use tables::sense::Sense;
use tally::{Called, Played, Tally};

// The sheets so far: how many were settled, and how many of those are part-used, with a kind that is not reached; how many were refused; and what was
// played on those settled, in the plain sense and in the finer one.
#[derive(Default, Drop)]
struct Count {
    settled: u64,
    part: u64,
    refused: u64,
    plain: Tally,
    finer: Tally,
}

// The most pairs that the player looks at for one verdict, and the rounds that fields called same are played to.
const BUDGET: usize = 300_000;

const ROUNDS: u64 = 5;

// Field 0 against a later field, in a sense: the verdict and the prime forms against what was played, on the sheet `played`.
fn with_pair(
    sense: Sense,
    sheet: &[u8],
    played: &[u8],
    settlement: &Settlement,
    later: usize,
    tally: Tally,
) -> Tally
    requires { IsSettlement (sense_of sense) sheet.now settlement.now }
{
    let last = settlement.settled.stage;
    let mut first = [0u64; 32];
    let _ = form_accepted(sheet, settlement, 0, &mut first);
    let mut second = [0u64; 32];
    let _ = form_accepted(sheet, settlement, later, &mut second);
    let equal = first == second;
    let unlike = tally::look_unlike(sheet, 0, later);
    let totals = sense == Sense::Finer;
    match compare_accepted(sense, sheet, settlement, 0, later) {
        Verdict::Same => {
            let tried = test_player::parting(played, totals, ROUNDS, 0, later, BUDGET);
            tally.with_pair(Called::Same, last, equal, unlike, tried)
        }
        Verdict::Different { stage, rounds } => {
            let tried = test_player::parting(played, totals, rounds, 0, later, BUDGET);
            tally.with_pair(
                Called::Different { stage, rounds },
                last,
                equal,
                unlike,
                tried,
            )
        }
        Verdict::Refused { .. } => tally,
    }
}

// Field 0 against each later field, in a sense.
fn with_pairs(
    sense: Sense,
    sheet: &[u8],
    played: &[u8],
    settlement: &Settlement,
    tally: Tally,
) -> Tally
    requires { IsSettlement (sense_of sense) sheet.now settlement.now }
{
    let mut next = tally;
    for later in 1..settlement.card.fields {
        next = with_pair(sense, sheet, played, settlement, later, next);
    }
    next
}

// One sheet more, and the sheet that is played for it.
fn with_sheet(sheet: &[u8], played: &[u8], count: Count) -> Count {
    let (Ok(plain), Ok(finer)) = (
        settle_once(Sense::Plain, sheet),
        settle_once(Sense::Finer, sheet),
    ) else {
        return Count {
            refused: count.refused.saturating_add(1),
            ..count
        };
    };
    Count {
        settled: count.settled.saturating_add(1),
        part: count
            .part
            .saturating_add(u64::from(reached_part::part_used(sheet))),
        plain: with_pairs(Sense::Plain, sheet, played, &plain, count.plain),
        finer: with_pairs(Sense::Finer, sheet, played, &finer, count.finer),
        ..count
    }
}

// A stored sheet, played as it is.
fn with_stored(sheet: &[u8], count: Count) -> Count {
    with_sheet(sheet, sheet, count)
}

// The sheet that argument i names.
fn with_argument<R: Env + Files, E: Write>(
    rt: &R,
    errors: &mut E,
    argument: usize,
    count: Count,
) -> Count {
    let mut name = [0u8; 32];
    let length = name_of(rt, argument, &mut name);
    let mut sheet = [0u8; 12821];
    let bytes = read_stored(rt, errors, &name[..length], b".sheet", &mut sheet);
    with_stored(&sheet[..bytes], count)
}

// The stored sheets.
pub fn play_stored<R: Env + Files, O: Write, E: Write>(rt: &R, output: &mut O, errors: &mut E) {
    let mut count = Count::default();
    for i in 1..argument_count(rt) {
        count = with_argument(rt, errors, i, count);
    }
    print_count(output, b"stored sheets", count);
}

// The sheet that a seed gives.
fn with_seed(seed: u64, count: Count) -> Count {
    let mut sheet = [0u8; 128];
    let bytes = random_cards::random_sheet(seed, &mut sheet);
    with_front(sheet, bytes, count)
}

// The sheet at the front of an array.
fn with_front(sheet: [u8; 128], bytes: usize, count: Count) -> Count
    requires { bytes ≤ 100 }
{
    with_random(&sheet[..bytes], count)
}

// A random sheet, of which the reached part is played.
fn with_random(sheet: &[u8], count: Count) -> Count {
    let mut part = [0u8; 128];
    let bytes = reached_part::reached_part(sheet, &mut part);
    with_part(sheet, part, bytes, count)
}

// The reached part at the front of an array.
fn with_part(sheet: &[u8], part: [u8; 128], bytes: usize, count: Count) -> Count
    requires { bytes ≤ 128 }
{
    with_sheet(sheet, &part[..bytes], count)
}

// Random small sheets, of the seeds from 0 up.
pub fn play_random<O: Write>(output: &mut O) {
    let mut count = Count::default();
    for seed in 0..8000 {
        count = with_seed(seed, count);
    }
    print_count(output, b"random sheets", count);
}

// One number after its name.
fn print<O: Write>(output: &mut O, name: &[u8], number: u64) {
    let _ = output.write_all(name);
    let _ = write!(output, "{number}");
}

// What was counted.
fn print_count<O: Write>(output: &mut O, title: &[u8], count: Count) {
    let _ = output.write_all(title);
    print(output, b": settled ", count.settled);
    print(output, b", of which part-used ", count.part);
    print(output, b", refused ", count.refused);
    let _ = output.write_all(b"\n");
    print_tally(output, count.plain);
    let _ = output.write_all(b"  in the finer sense:\n");
    print_tally(output, count.finer);
}

fn print_tally<O: Write>(output: &mut O, tally: Tally) {
    let sames = tally.sames;
    let differents = tally.differents;
    print(output, b"  called same ", tally.same);
    print(output, b", of which look unlike ", tally.unlike);
    print_played(output, sames);
    print(output, b"\n  called different ", tally.different);
    print_played(output, differents);
    print(output, b"\n  different at stage 0 ", tally.zero);
    print(output, b", 1 ", tally.one);
    print(output, b", 2 ", tally.two);
    print(output, b", 3 ", tally.three);
    print(output, b", later ", tally.later);
    print(
        output,
        b"; from 1 up and below the settled stage ",
        tally.early,
    );
    print(output, b"\n  left open by the game ", tally.undecided);
    print(output, b", contradicted ", tally.wrong);
    print(output, b"; prime forms that disagree ", tally.misfiled);
    let _ = output.write_all(b"\n");
}

// How far the pairs were played.
fn print_played<O: Write>(output: &mut O, played: Played) {
    print(output, b"; played in full ", played.full);
    print(output, b", in part ", played.part);
    print(output, b", not at all ", played.none);
}
