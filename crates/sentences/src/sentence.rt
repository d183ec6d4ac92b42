// The sentence of a refusal.
ghost use Rattle.std.specs.Prelude.{◌+◌, ◌≤◌, length};
ghost use Rattle.text.specs.Appended.{Appended};
ghost use Rattle.sentences.specs.Sentence.{named, sentence_of};

use crate::table::{Place, find_row};
use text::{put_bytes, put_labelled};

// `line P: `, `kind P: ` or nothing.
fn put_place(out: &mut [u8], at: usize, places: Place, place: usize) -> usize
    requires { at + 27 ≤ length out.old }
    ensures { Appended 27 out.old at (named places place) out.new result }
{
    match places {
        Place::Only(_) => at,
        Place::Line => {
            let next = put_labelled(out, at, b"line ", place as u64);
            put_bytes(out, next, b": ")
        }
        Place::Kind => {
            let next = put_labelled(out, at, b"kind ", place as u64);
            put_bytes(out, next, b": ")
        }
    }
}

// The sentence of a refusal by its number and place, with a newline after it; nothing where the table has none.
pub fn put_sentence(out: &mut [u8], at: usize, number: usize, place: usize) -> usize
    requires { at + 80 ≤ length out.old }
    ensures { Appended 80 out.old at (sentence_of number place) out.new result }
{
    let Some(row) = find_row(number, place) else {
        return at;
    };
    let next = put_place(out, at, row.places, place);
    put_bytes(out, next, row.words)
}
