// Counts of kinds: those of a row, of a prime form or of a field.
ghost use Rattle.std.specs.Prelude.{◌+◌, ◌≤◌, length};
ghost use Rattle.model.specs.Page.{counts_of};
ghost use Rattle.text.specs.Appended.{Appended};
ghost use Rattle.text.specs.Count.{count_text, count_texts, counts_line, labelled_counts};
ghost use Rattle.text.specs.Lengths.{letters, most_count, most_counts, most_labelled_counts};

use crate::number::{put_byte, put_labelled, put_number};

// One count, with the space before it.
fn put_count(out: &mut [u8], at: usize, count: u64) -> usize
    requires { at + most_count ≤ length out.old }
    ensures { Appended most_count out.old at (count_text count) out.new result }
{
    put_labelled(out, at, b" ", count)
}

// The counts one after another, each with the space before it.
fn put_each_count(out: &mut [u8], at: usize, counts: &[u64]) -> usize
    requires { at + most_counts (length counts.now) ≤ length out.old }
    ensures { Appended (most_counts (length counts.now)) out.old at (count_texts counts.now) out.new result }
{
    let mut next = at;
    for count in counts {
        next = put_count(out, next, *count);
    }
    next
}

// "after \"=\" stand the counts by kind"
pub fn put_counts(out: &mut [u8], at: usize, counts: &[u64]) -> usize
    requires { at + (letters "=" + most_counts (length counts.now)) ≤ length out.old }
    ensures { Appended (letters "=" + most_counts (length counts.now)) out.old at (counts_of counts.now) out.new result }
{
    let next = put_byte(out, at, b'=');
    put_each_count(out, next, counts)
}

// The counts after a text and a number, as a line.
pub fn put_labelled_counts(
    out: &mut [u8],
    at: usize,
    label: &[u8],
    value: u64,
    counts: &[u64],
) -> usize
    requires { at + most_labelled_counts (length label.now) (length counts.now) ≤ length out.old }
    ensures { Appended (most_labelled_counts (length label.now) (length counts.now)) out.old at (labelled_counts label.now value counts.now) out.new result }
{
    let space = put_labelled(out, at, label, value);
    let shown = put_byte(out, space, b' ');
    let last = put_counts(out, shown, counts);
    put_byte(out, last, b'\n')
}

// The counts as a line of their own.
pub fn put_counts_line(out: &mut [u8], at: usize, counts: &[u64]) -> usize
    requires { at + (letters "\n" + most_counts (length counts.now)) ≤ length out.old }
    ensures { Appended (letters "\n" + most_counts (length counts.now)) out.old at (counts_line counts.now) out.new result }
{
    let [first, others @ ..] = counts else {
        return put_byte(out, at, b'\n');
    };
    let next = put_number(out, at, *first);
    let last = put_each_count(out, next, others);
    put_byte(out, last, b'\n')
}
