// The words of verdicts and refusals, and what a pair's line starts with, each over plain values.
ghost use Rattle.std.specs.Prelude.{◌+◌, ◌≤◌, length};
ghost use Rattle.model.specs.Answer.{given, same, different};
ghost use Rattle.model.specs.Page.{refused_line, word_of};
ghost use Rattle.text.specs.Appended.{Appended};
ghost use Rattle.verdicts.specs.Pair.{start_text};

use text::{put_byte, put_bytes, put_labelled, put_two_labelled};

// `refused NUMBER PLACE`.
pub fn put_refused(out: &mut [u8], at: usize, number: usize, place: usize) -> usize
    requires { at + 50 ≤ length out.old }
    ensures { Appended 50 out.old at (refused_line number place) out.new result }
{
    let last = put_two_labelled(out, at, b"refused ", number as u64, b" ", place as u64);
    put_byte(out, last, b'\n')
}

// `same`.
pub fn put_same(out: &mut [u8], at: usize) -> usize
    requires { at + 5 ≤ length out.old }
    ensures { Appended 5 out.old at (word_of (given same)) out.new result }
{
    put_bytes(out, at, b"same\n")
}

// `different S R`.
pub fn put_different(out: &mut [u8], at: usize, stage: usize, rounds: u64) -> usize
    requires { at + 52 ≤ length out.old }
    ensures { Appended 52 out.old at (word_of (given (different stage rounds))) out.new result }
{
    let last = put_two_labelled(out, at, b"different ", stage as u64, b" ", rounds);
    put_byte(out, last, b'\n')
}

// `pair 0 J `, before the word of its verdict.
pub fn put_start(out: &mut [u8], at: usize, later: usize) -> usize
    requires { at + 28 ≤ length out.old }
    ensures { Appended 28 out.old at (start_text later) out.new result }
{
    let last = put_labelled(out, at, b"pair 0 ", later as u64);
    put_byte(out, last, b' ')
}
