// The lines of the pairs: "Field 0 is paired with each later field."
ghost use Rattle.std.specs.Prelude.{◌+◌, ◌*◌, ◌-◌, ◌≤◌, length};
ghost use Rattle.filer.specs.Answers.{verdict_of};
ghost use Rattle.model.specs.Sense.{plain};
ghost use Rattle.filer.specs.Settlement.{IsSettlement};
ghost use Rattle.text.specs.Appended.{Appended};
ghost use Rattle.verdicts.specs.Pair.{pair_text, pairs_text};
ghost use Rattle.page.specs.Lengths.{most_pair};

use filer::Verdict;
use filer::compare::compare_accepted;
use filer::settlement::Settlement;
use tables::sense::Sense;
use verdicts::{put_different, put_refused, put_same, put_start};

// The line of one pair, by its verdict. (No page has a refusal here, since Compare refuses no two fields of an accepted sheet.)
fn put_pair(out: &mut [u8], at: usize, later: usize, verdict: Verdict) -> usize
    requires { at + most_pair ≤ length out.old }
    ensures { Appended most_pair out.old at (pair_text later (verdict_of verdict)) out.new result }
{
    let word = put_start(out, at, later);
    match verdict {
        Verdict::Same => put_same(out, word),
        Verdict::Different { stage, rounds } => put_different(out, word, stage, rounds),
        Verdict::Refused { number, place } => put_refused(out, word, number, place),
    }
}

// The lines of all pairs of a settled sheet.
pub fn put_pairs(
    out: &mut [u8],
    at: usize,
    sheet: &[u8],
    settlement: &Settlement,
    fields: usize,
) -> usize
    requires settlement { IsSettlement plain sheet.now settlement.now }
    requires fields_in_bounds { at + most_pair * (fields - 1) ≤ length out.old }
    ensures { Appended (most_pair * (fields - 1)) out.old at (pairs_text sheet.now fields) out.new result }
{
    let mut next = at;
    for later in 1..fields {
        let verdict = compare_accepted(Sense::Plain, sheet, settlement, 0, later);
        next = put_pair(out, next, later, verdict);
    }
    next
}
