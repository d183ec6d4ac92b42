// An entry of the table.
ghost use Rattle.std.specs.Prelude.{◌≡◌, ◌≤◌, T};
ghost use Rattle.model.specs.Limits.{most_kinds, most_tokens};
ghost use Rattle.model.specs.Shelf.{entry};
ghost use Rattle.shelf.specs.Rule.{obeys_rule};

use crate::table::TABLE;

// The sizes of a row, "t from 0 to 16 tokens".
const SIZES: usize = 17;

// The constant table: every entry is what the addition rule makes of those before it. Each call builds it on the stack, in some
// 600 instructions; a loop takes it once, before its first turn.
pub fn entries() -> [u64; 561]
    ensures { T (obeys_rule result) }
{
    TABLE
}

// "how many fields there are" of so many tokens of so many kinds.
pub fn entry_of(kinds: usize, tokens: usize) -> u64
    requires { (kinds ≤ most_kinds) × (tokens ≤ most_tokens) }
    ensures { result ≡ entry kinds tokens }
{
    let table = entries();
    entry_in(&table, kinds, tokens)
}

// The entry for so many kinds and tokens, of the table that the caller has.
pub fn entry_in(table: &[u64; 561], kinds: usize, tokens: usize) -> u64
    requires in_table { (kinds ≤ most_kinds) × (tokens ≤ most_tokens) }
    requires obeys { T (obeys_rule table.now) }
    ensures { result ≡ entry kinds tokens }
{
    table[kinds * SIZES + tokens]
}
