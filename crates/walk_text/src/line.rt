// The line that a walk answers.
ghost use Rattle.std.specs.Prelude.{◌+◌, ◌≤◌, length};
ghost use Rattle.text.specs.Appended.{Appended};
ghost use Rattle.walker.specs.Answers.{walked_of};
ghost use Rattle.walk_text.specs.Line.{most_drawn, drawn_text, most_walk, walk_line};

use text::{put_bytes, put_labelled};
use verdicts::put_refused;
use walker::{Answer, Walked};

// ` drawn D`, the end of every line but a refused one.
fn put_drawn(out: &mut [u8], at: usize, drawn: u32) -> usize
    requires { at + most_drawn ≤ length out.old }
    ensures { Appended most_drawn out.old at (drawn_text drawn) out.new result }
{
    let next = put_labelled(out, at, b" drawn ", u64::from(drawn));
    put_bytes(out, next, b"\n")
}

// `apart R drawn D`, `together drawn D`, `spent drawn D` or `refused NUMBER PLACE`.
pub fn put_walk(out: &mut [u8], at: usize, walked: Walked) -> usize
    requires { at + most_walk ≤ length out.old }
    ensures { Appended most_walk out.old at (walk_line (walked_of walked)) out.new result }
{
    let drawn = walked.drawn;
    match walked.answer {
        Answer::Apart { rounds } => {
            let next = put_labelled(out, at, b"apart ", rounds);
            put_drawn(out, next, drawn)
        }
        Answer::Together => {
            let next = put_bytes(out, at, b"together");
            put_drawn(out, next, drawn)
        }
        Answer::Spent => {
            let next = put_bytes(out, at, b"spent");
            put_drawn(out, next, drawn)
        }
        Answer::Refused { number, place } => put_refused(out, at, number, place),
    }
}
