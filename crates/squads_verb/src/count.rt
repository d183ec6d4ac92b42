// squads WHOLE SQUAD.
ghost use Rattle.std.specs.Prelude.{◌+◌, ◌≤◌, length};
ghost use Rattle.text.specs.Appended.{Appended};
ghost use Rattle.replies.specs.Told.{Tells};
ghost use Rattle.replies.specs.Texts.{most_text};
ghost use Rattle.squads_verb.specs.Texts.{most_squads, squads_line};
ghost use Rattle.squads_verb.specs.Calls.{squads_told};

use replies::Reply;
use replies::reply::refuse;
use sheet::Card;
use squads::squads;
use text::put_labelled_counts;

// `squads Q = COUNTS`.
fn put_squads(out: &mut [u8], at: usize, count: u64, remainder: &[u64]) -> usize
    requires { at + most_squads (length remainder.now) ≤ length out.old }
    ensures { Appended (most_squads (length remainder.now)) out.old at (squads_line count remainder.now) out.new result }
{
    put_labelled_counts(out, at, b"squads ", count, remainder)
}

// How often one field goes into another, and the counts of what is left.
pub fn count_squads(sheet: &[u8], numbers: &[u64], out: &mut [u8]) -> Reply
    requires { most_text ≤ length out.old }
    ensures { Tells (squads_told sheet.now numbers.now) out.old out.new result }
{
    if numbers.len() != 2 {
        return Reply::no_call();
    }
    let mut remainder = [0u64; 32];
    match squads(
        sheet,
        numbers[0] as usize,
        numbers[1] as usize,
        &mut remainder,
    ) {
        Ok(count) => {
            let card = Card::of_header(sheet);
            let n = card.kinds;
            let length = put_squads(out, 0, count, &remainder[..n]);
            Reply::answered(length)
        }
        Err(refusal) => refuse(out, refusal),
    }
}
