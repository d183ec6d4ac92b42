// common FIELD SIZE.
ghost use Rattle.std.specs.Prelude.{◌+◌, ◌≤◌, ◌<◌, length};
ghost use Rattle.text.specs.Appended.{Appended};
ghost use Rattle.replies.specs.Told.{Tells};
ghost use Rattle.replies.specs.Texts.{most_text};
ghost use Rattle.frequencies_verb.specs.Texts.{most_common, common_line};
ghost use Rattle.frequencies_verb.specs.Calls.{common_told};

use copies::widen;
use frequencies::frequencies;
use replies::Reply;
use replies::reply::refuse;
use sheet::Card;
use text::{put_bytes, put_counts_line, put_labelled};

// `same A stages B0 B1 .. Bn`.
fn put_common(out: &mut [u8], at: usize, counts: &[u64]) -> usize
    requires { (0 < length counts.now) × (at + most_common (length counts.now) ≤ length out.old) }
    ensures { Appended (most_common (length counts.now)) out.old at (common_line counts.now) out.new result }
{
    let same = put_labelled(out, at, b"same ", counts[0]);
    let stages = put_bytes(out, same, b" stages ");
    put_counts_line(out, stages, &counts[1..])
}

// How many of the fields of a size are the same as a field, and how many part from it at each stage.
pub fn common_answers(sheet: &[u8], numbers: &[u64], out: &mut [u8]) -> Reply
    requires { most_text ≤ length out.old }
    ensures { Tells (common_told sheet.now numbers.now) out.old out.new result }
{
    if numbers.len() != 2 {
        return Reply::no_call();
    }
    let mut counts = [0u32; 34];
    match frequencies(sheet, numbers[0] as usize, numbers[1] as usize, &mut counts) {
        Ok(()) => {
            let card = Card::of_header(sheet);
            let places = card.kinds + 2;
            let wide: [u64; 34] = widen(&counts[..places]);
            let length = put_common(out, 0, &wide[..places]);
            Reply::answered(length)
        }
        Err(refusal) => refuse(out, refusal),
    }
}
