// The lines of kinds and fields, each over plain values.
ghost use Rattle.std.specs.Prelude.{◌+◌, ◌≤◌, ◌<◌, length};
ghost use Rattle.model.specs.Limits.{most_kinds};
ghost use Rattle.text.specs.Appended.{Appended};
ghost use Rattle.text.specs.Lengths.{letters, most_counts};
ghost use Rattle.listing.specs.Lengths.{most_head, most_words, most_kind_line, most_field_line};
ghost use Rattle.listing.specs.Line.{head_text, row_text, words_text, kind_text, field_text};

use copies::widen;
use text::{put_byte, put_bytes, put_counts, put_labelled, put_labelled_counts, put_two_labelled};

// `kinds N stages S`.
pub fn put_head(out: &mut [u8], at: usize, kinds: usize, stage: usize) -> usize
    requires { at + most_head ≤ length out.old }
    ensures { Appended most_head out.old at (head_text kinds stage) out.new result }
{
    let last = put_two_labelled(out, at, b"kinds ", kinds as u64, b" stages ", stage as u64);
    put_byte(out, last, b'\n')
}

// What a kind's line shows of its row: the word prime where the row is the kind itself, the counts of any other.
fn put_prime_or_row(out: &mut [u8], at: usize, kind: usize, row: &[u32]) -> usize
    requires kind_in_bounds { (kind < length row.now) × (length row.now ≤ most_kinds) }
    requires row_in_bounds { at + (letters "prime" + most_counts (length row.now)) ≤ length out.old }
    ensures { Appended (letters "prime" + most_counts (length row.now)) out.old at (row_text kind row.now) out.new result }
{
    if row[kind] == 1 {
        put_bytes(out, at, b"prime")
    } else {
        let counts: [u64; 32] = widen(row);
        put_counts(out, at, &counts[..row.len()])
    }
}

// What a kind's line says after the kind: its norm, its mark and its row, or that it is out, for a kind without a norm.
fn put_words(out: &mut [u8], at: usize, kind: usize, norm: u32, since: usize, row: &[u32]) -> usize
    requires kind_in_bounds { (kind < length row.now) × (length row.now ≤ most_kinds) }
    requires row_in_bounds { at + most_words (length row.now) ≤ length out.old }
    ensures { Appended (most_words (length row.now)) out.old at (words_text kind norm since row.now) out.new result }
{
    if norm == 0 {
        return put_bytes(out, at, b" out");
    }
    let space = put_two_labelled(out, at, b" norm ", norm as u64, b" since ", since as u64);
    let shown = put_byte(out, space, b' ');
    put_prime_or_row(out, shown, kind, row)
}

// `kind K norm W since S prime`, `kind K norm W since S = COUNTS` or `kind K out`.
pub fn put_kind(
    out: &mut [u8],
    at: usize,
    kind: usize,
    norm: u32,
    since: usize,
    row: &[u32],
) -> usize
    requires kind_in_bounds { (kind < length row.now) × (length row.now ≤ most_kinds) }
    requires row_in_bounds { at + most_kind_line (length row.now) ≤ length out.old }
    ensures { Appended (most_kind_line (length row.now)) out.old at (kind_text kind norm since row.now) out.new result }
{
    let words = put_labelled(out, at, b"kind ", kind as u64);
    let last = put_words(out, words, kind, norm, since, row);
    put_byte(out, last, b'\n')
}

// `field I = COUNTS`.
pub fn put_field(out: &mut [u8], at: usize, field: usize, form: &[u64]) -> usize
    requires { at + most_field_line (length form.now) ≤ length out.old }
    ensures { Appended (most_field_line (length form.now)) out.old at (field_text field form.now) out.new result }
{
    put_labelled_counts(out, at, b"field ", field as u64, form)
}
