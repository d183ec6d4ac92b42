// Field to number.
ghost use mathlib.Core.List.{reverse, Memᴰ};
ghost use Rattle.std.specs.Prelude.{◌≡◌, ◌+◌, ◌-◌, ◌≤◌, T};
ghost use Rattle.model.specs.Field.{at};
ghost use Rattle.model.specs.Limits.{most_kinds, most_tokens};
ghost use Rattle.model.specs.Shelf.{entry, listed, number_in};
ghost use Rattle.shelf.specs.Kinds.{InOrder};
ghost use Rattle.shelf.specs.Rule.{obeys_rule};

use crate::entry::{entries, entry_in};

// How many of the fields of so many tokens of so many kinds have fewer than this count of the last kind: the entry, less that for the tokens left beside the count.
fn with_fewer(table: &[u64; 561], kinds: usize, tokens: usize, count: usize) -> u64
    requires in_table { (1 ≤ kinds) × (kinds ≤ most_kinds) × (tokens ≤ most_tokens) × (count ≤ tokens) }
    requires obeys { T (obeys_rule table.now) }
    ensures { result + entry kinds (tokens - count) ≡ entry kinds tokens }
{
    entry_in(table, kinds, tokens) - entry_in(table, kinds, tokens - count)
}

// The number of a field among those of its size, which it is one of, over kinds in number order.
pub fn number_of(kinds: &[usize], field: &[u32; 32], size: usize) -> u64
    requires in_order { InOrder kinds.now }
    requires size_le_most_tokens { size ≤ most_tokens }
    requires fact { Memᴰ (at field.now) (listed (reverse kinds.now) size) }
    ensures { result ≡ number_in (reverse kinds.now) size (at field.now) }
{
    let table = entries();
    number_in(&table, kinds, field, size)
}

// The number of a field among those of its size, over kinds in number order, by the table that the caller has.
fn number_in(table: &[u64; 561], kinds: &[usize], field: &[u32; 32], size: usize) -> u64
    requires in_order { InOrder kinds.now }
    requires size_le_most_tokens { size ≤ most_tokens }
    requires listed { Memᴰ (at field.now) (listed (reverse kinds.now) size) }
    requires obeys { T (obeys_rule table.now) }
    ensures { result ≡ number_in (reverse kinds.now) size (at field.now) }
{
    let mut number: u64 = 0;
    let mut left = size;
    for i in (0..kinds.len()).rev() {
        let kind = kinds[i];
        let count = field[kind] as usize;
        number += with_fewer(table, i + 1, left, count);
        left -= count;
    }
    number
}
