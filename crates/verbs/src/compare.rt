// compare I J and finer I J.
ghost use Rattle.std.specs.Prelude.{◌≤◌, length};
ghost use Rattle.tables.specs.Senses.{sense_of};
ghost use Rattle.filer.specs.Answers.{verdict_of};
ghost use Rattle.replies.specs.Told.{told, Tells};
ghost use Rattle.verbs.specs.Texts.{verdict_text};
ghost use Rattle.replies.specs.Texts.{most_text};
ghost use Rattle.verbs.specs.Calls.{compare_told_in, compare_told, finer_told};

use filer::Verdict;
use filer::compare::compare_in;
use replies::Reply;
use replies::reply::refuse_as;
use tables::sense::Sense;
use verdicts::{put_different, put_same};

// `same` or `different S R`.
fn put_verdict(out: &mut [u8], verdict: Verdict) -> Reply
    requires { most_text ≤ length out.old }
    ensures { Tells (told (verdict_text (verdict_of verdict))) out.old out.new result }
{
    match verdict {
        Verdict::Same => {
            let length = put_same(out, 0);
            Reply::answered(length)
        }
        Verdict::Different { stage, rounds } => {
            let length = put_different(out, 0, stage, rounds);
            Reply::answered(length)
        }
        Verdict::Refused { number, place } => refuse_as(out, number, place),
    }
}

// The verdict of a sense on two fields.
fn tell_verdict(sense: Sense, sheet: &[u8], numbers: &[u64], out: &mut [u8]) -> Reply
    requires { most_text ≤ length out.old }
    ensures { Tells (compare_told_in (sense_of sense) sheet.now numbers.now) out.old out.new result }
{
    if numbers.len() != 2 {
        return Reply::no_call();
    }
    let verdict = compare_in(sense, sheet, numbers[0] as usize, numbers[1] as usize);
    put_verdict(out, verdict)
}

// compare I J.
pub fn compare_fields(sheet: &[u8], numbers: &[u64], out: &mut [u8]) -> Reply
    requires { most_text ≤ length out.old }
    ensures { Tells (compare_told sheet.now numbers.now) out.old out.new result }
{
    tell_verdict(Sense::Plain, sheet, numbers, out)
}

// finer I J.
pub fn finer_compare_fields(sheet: &[u8], numbers: &[u64], out: &mut [u8]) -> Reply
    requires { most_text ≤ length out.old }
    ensures { Tells (finer_told sheet.now numbers.now) out.old out.new result }
{
    tell_verdict(Sense::Finer, sheet, numbers, out)
}
