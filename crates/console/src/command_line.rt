// The words of the command line.
ghost use Rattle.std.specs.Prelude.{◌≤◌, IfSome, length};
ghost use Rattle.console.specs.Counts.{IsPrefixLen};

use std::env::FillError;
use std::rt::Env;
use text::put_byte;

// The words past the program's own name, each with a 0 after it, from position `at` of the buffer on: how much of the buffer is written, or none where they do not fit.
pub fn arguments<E: Env>(env: &E, words: &mut [u8], at: usize) -> Option<usize>
    ensures { IfSome result (λ n. IsPrefixLen n words.new) }
{
    if words.len() < at {
        return None;
    }
    let mut next = at;
    for i in 1..argument_count(env) {
        next = put_argument(env, words, next, i)?;
    }
    Some(next)
}

// How many arguments there are, the program's own name among them: the list ends at the first that is not there.
fn argument_count<E: Env>(env: &E) -> usize {
    for i in 0..usize::MAX {
        if let Err(FillError::NotPresent) = env.arg(i, &mut []) {
            return i;
        }
    }
    usize::MAX
}

// The argument at an index, with a 0 after it.
fn put_argument<E: Env>(env: &E, words: &mut [u8], at: usize, index: usize) -> Option<usize>
    requires { at ≤ length words.old }
    ensures { IfSome result (λ n. IsPrefixLen n words.new) }
{
    let bytes = env.arg(index, &mut words[at..]).ok()?;
    let end = at + bytes;
    if words.len() <= end {
        return None;
    }
    Some(put_byte(words, end, 0))
}
