// Verdicts held against what was played, and counted.
ghost use Rattle.std.specs.Prelude.{◌≡◌};
ghost use Rattle.tally.specs.Judged.{Tests, Unlike, held_of, judgement_of, stopped_of, extent_of, stage_of, counted_of, played_of, empty, tallied};

use second_reader::{field_count, fields, kinds};
use test_player::Tried;

// A verdict on two fields.
#[derive(Clone, Copy)]
pub enum Called {
    Same,
    Different { stage: usize, rounds: u64 },
}

// What was played agrees with the verdict, leaves it open, or contradicts it.
#[derive(Clone, Copy, Debug, PartialEq, Eq)]
pub enum Judgement {
    Agrees,
    Open,
    Wrong,
}

// How far a pair was played: to the parting or to the rounds asked for; to fewer; or to none.
#[derive(Clone, Copy)]
pub enum Extent {
    InFull,
    InPart,
    NotAtAll,
}

// How many pairs were played in full, in part and not at all.
#[derive(Default, Drop)]
pub struct Played {
    pub full: u64,
    pub part: u64,
    pub none: u64,
}

// How many pairs were called same, and how many of those have `unlike` fields, with other counts; how many different, and of those how many part at
// stage 0, 1, 2, 3 and later, and how many `early`, at a stage from 1 up and below the settled one; how far the pairs called same and those
// called different were played; how many verdicts the game leaves `undecided`, not having been played in full; how many it contradicts; and how
// many pairs are `misfiled`, with prime forms equal and called different, or the reverse.
#[derive(Default, Drop)]
pub struct Tally {
    pub same: u64,
    pub unlike: u64,
    pub different: u64,
    pub zero: u64,
    pub one: u64,
    pub two: u64,
    pub three: u64,
    pub later: u64,
    pub early: u64,
    pub sames: Played,
    pub differents: Played,
    pub undecided: u64,
    pub wrong: u64,
    pub misfiled: u64,
}

// Fields called different that hold at some rounds: open only where more rounds are reported.
fn judge_held(held: u64, rounds: u64) -> Judgement
    ensures { result ≡ held_of held rounds }
{
    if held < rounds {
        Judgement::Open
    } else {
        Judgement::Wrong
    }
}

// A verdict against what was played: fields called same are never parted, and agree only where they hold at all rounds asked for; those called
// different do not hold at the rounds reported.
fn judge(called: Called, tried: Tried) -> Judgement
    ensures { result ≡ judgement_of called tried }
{
    match called {
        Called::Same => match tried {
            Tried::Parted(_) => Judgement::Wrong,
            Tried::Held(_) => Judgement::Agrees,
            Tried::OutOfBudget(_) => Judgement::Open,
            Tried::OutOfBounds(_) => Judgement::Open,
        },
        Called::Different { stage: _, rounds } => match tried {
            Tried::Parted(r) => if r <= rounds {
                Judgement::Agrees
            } else {
                Judgement::Wrong
            },
            Tried::Held(r) => judge_held(r, rounds),
            Tried::OutOfBudget(r) => judge_held(r, rounds),
            Tried::OutOfBounds(_) => Judgement::Open,
        },
    }
}

// A pair that was stopped after so many rounds.
fn extent_stopped(rounds: u64) -> Extent
    ensures { result ≡ stopped_of rounds }
{
    if rounds == 0 {
        Extent::NotAtAll
    } else {
        Extent::InPart
    }
}

// How far a pair was played.
fn extent_of(tried: Tried) -> Extent
    ensures { result ≡ extent_of tried }
{
    match tried {
        Tried::Parted(_) => Extent::InFull,
        Tried::Held(_) => Extent::InFull,
        Tried::OutOfBudget(rounds) => extent_stopped(rounds),
        Tried::OutOfBounds(rounds) => extent_stopped(rounds),
    }
}

// The stage at which a pair was called different, none for same; a stage past 1,000 is none that the filer gives, and is taken as 1,000.
fn stage_of(called: Called) -> Option<usize>
    ensures { result ≡ stage_of called }
{
    match called {
        Called::Same => None,
        Called::Different { stage, .. } => Some(stage.min(1000)),
    }
}

// One more where the test is passed; the greatest number stays.
fn counted(test: bool, number: u64) -> u64
    ensures { result ≡ counted_of test number }
{
    if test {
        number.saturating_add(1)
    } else {
        number
    }
}

impl Played {
    // One pair more.
    fn with_extent(self, extent: Extent) -> Played
        ensures { result ≡ played_of extent self }
    {
        match extent {
            Extent::InFull => Played {
                full: self.full.saturating_add(1),
                ..self
            },
            Extent::InPart => Played {
                part: self.part.saturating_add(1),
                ..self
            },
            Extent::NotAtAll => Played {
                none: self.none.saturating_add(1),
                ..self
            },
        }
    }
}

impl Tally {
    // Nothing counted yet.
    pub fn new() -> Tally
        ensures { result ≡ empty }
    {
        Tally::default()
    }

    // One pair more: the stage at which it was called different, its judgement, how far it was played, the card's settled stage, whether its prime
    // forms are equal, and whether its fields look unlike.
    fn with_judged(
        self,
        stage: Option<usize>,
        judged: Judgement,
        extent: Extent,
        settled: usize,
        equal: bool,
        unlike: bool,
    ) -> Tally
        ensures { result ≡ tallied self stage judged extent settled equal unlike }
    {
        let undecided = counted(judged == Judgement::Open, self.undecided);
        let wrong = counted(judged == Judgement::Wrong, self.wrong);
        match stage {
            None => Tally {
                same: self.same.saturating_add(1),
                unlike: counted(unlike, self.unlike),
                sames: self.sames.with_extent(extent),
                undecided,
                wrong,
                misfiled: counted(!equal, self.misfiled),
                ..self
            },
            Some(stage) => Tally {
                different: self.different.saturating_add(1),
                zero: counted(stage == 0, self.zero),
                one: counted(stage == 1, self.one),
                two: counted(stage == 2, self.two),
                three: counted(stage == 3, self.three),
                later: counted(3 < stage, self.later),
                early: counted(0 < stage && stage < settled, self.early),
                differents: self.differents.with_extent(extent),
                undecided,
                wrong,
                misfiled: counted(equal, self.misfiled),
                ..self
            },
        }
    }

    // One pair more: its verdict, the card's settled stage, whether its prime forms are equal, whether its fields look unlike, and what was played.
    pub fn with_pair(
        self,
        called: Called,
        settled: usize,
        equal: bool,
        unlike: bool,
        tried: Tried,
    ) -> Tally
        ensures { result ≡ tallied self (stage_of called) (judgement_of called tried) (extent_of tried) settled equal unlike }
    {
        self.with_judged(
            stage_of(called),
            judge(called, tried),
            extent_of(tried),
            settled,
            equal,
            unlike,
        )
    }
}

// Whether two fields look unlike: they have other counts of some kind.
pub fn look_unlike(sheet: &[u8], first: usize, second: usize) -> bool
    ensures { Tests result (Unlike sheet.now first second) }
{
    if 32 < kinds(sheet) {
        return false;
    }
    if fields(sheet) <= first {
        return false;
    }
    if fields(sheet) <= second {
        return false;
    }
    for kind in 0..kinds(sheet) {
        if field_count(sheet, first, kind) != field_count(sheet, second, kind) {
            return true;
        }
    }
    false
}
