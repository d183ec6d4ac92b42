// How many fields of a size, over a list of kinds, have rows that add up to given counts.
ghost use Rattle.std.specs.Prelude.{reverse, ◌≡◌, ℕ, ◌≤◌, length};
ghost use Rattle.model.specs.Field.{at};
ghost use Rattle.model.specs.Limits.{most_kinds, most_tokens};
ghost use Rattle.shelf.specs.Kinds.{InOrder};
ghost use Rattle.row_sums.specs.Sums.{adding_to};

use crate::take::less_row;
use tables::table::row_of;

// Of the fields of one token: how many of the kinds have the counts as their row.
fn count_kinds(rows: &[u64], kinds: &[usize], counts: &[u64]) -> u64
    requires in_order { InOrder kinds.now }
    requires rows_len { (length rows.now ≡ 1024) × (length counts.now ≡ most_kinds) }
    ensures { result ≡ adding_to rows.now (reverse kinds.now) 1 (at counts.now) }
{
    let mut found = 0;
    for i in 0..kinds.len() {
        if row_of(rows, kinds[i]) == counts {
            found += 1;
        }
    }
    found
}

// Of the fields of so many tokens, over kinds in number order: how many have rows that add up to the counts. Those of which kind i is the last have one token of it, and otherwise
// tokens of the kinds up to it, whose rows add up to what is left.
pub fn count_fields(rows: &[u64], kinds: &[usize], size: usize, counts: &[u64]) -> u64
    requires in_order { InOrder kinds.now }
    requires size_le_most_tokens { size ≤ most_tokens }
    requires rows_len { (length rows.now ≡ 1024) × (length counts.now ≡ most_kinds) }
    ensures { result ≡ adding_to rows.now (reverse kinds.now) size (at counts.now) }
{
    if size == 0 {
        if counts.iter().all(|count| *count == 0) {
            return 1;
        }
        return 0;
    }
    if size == 1 {
        return count_kinds(rows, kinds, counts);
    }
    let mut found = 0;
    for (i, kind) in kinds.iter().enumerate() {
        if let Some(rest) = less_row(counts, row_of(rows, *kind)) {
            found += count_fields(rows, &kinds[..i + 1], size - 1, &rest);
        }
    }
    found
}
