// Number to field.
ghost use Rattle.std.specs.Prelude.{reverse, ◌≡◌, ◌≤◌, ◌<◌, T, length};
ghost use Rattle.model.specs.Field.{at};
ghost use Rattle.model.specs.Limits.{most_tokens};
ghost use Rattle.model.specs.Shelf.{entry, field_in};
ghost use Rattle.shelf.specs.Kinds.{InOrder};
ghost use Rattle.shelf.specs.Rule.{obeys_rule};

use crate::entry::{entries, entry_in};

// The field of a number among those of a size, over kinds in number order.
pub fn field_of(kinds: &[usize], size: usize, number: u64) -> [u16; 32]
    requires in_order { InOrder kinds.now }
    requires size_le_most_tokens { size ≤ most_tokens }
    requires number_bound { number < entry (length kinds.now) size }
    ensures { at result ≡ field_in (reverse kinds.now) size number }
{
    let table = entries();
    field_in(&table, kinds, size, number)
}

// The field of a number among those of a size, over kinds in number order, by the table that the caller has.
fn field_in(table: &[u64; 561], kinds: &[usize], size: usize, number: u64) -> [u16; 32]
    requires in_order { InOrder kinds.now }
    requires size_le_most_tokens { size ≤ most_tokens }
    requires number_bound { number < entry (length kinds.now) size }
    requires obeys { T (obeys_rule table.now) }
    ensures { at result ≡ field_in (reverse kinds.now) size number }
{
    let mut counts = [0u16; 32];
    let mut i = kinds.len();
    let mut left = size;
    let mut rest = number;
    // A while over two counters: a turn passes over a kind or takes a token.
    while 0 < left {
        let without = entry_in(table, i - 1, left);
        if rest < without {
            i -= 1;
        } else {
            rest -= without;
            left -= 1;
            let kind = kinds[i - 1];
            counts[kind] += 1;
        }
    }
    counts
}
