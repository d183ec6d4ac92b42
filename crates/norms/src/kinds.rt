// The norms of the reached kinds, found by sweeps over the lines of these kinds: each sweep finds every such kind's best line by the values of the sweep before, until one changes nothing, or there were as many as kinds.
ghost use Rattle.std.specs.Prelude.{false, ◌≡◌, ℕ, suc, get_or};
ghost use Rattle.model.specs.Field.{at};
ghost use Rattle.model.specs.Card as model;
ghost use Rattle.model.specs.Sheet.{card_of};
ghost use Rattle.model.specs.Limits.{norm_limit};
ghost use Rattle.sheet.specs.Reader.{Reads};
ghost use Rattle.norms.specs.Norms.{cut_norms};
ghost use Rattle.norms.specs.Sweep.{sweep_of};
ghost use Rattle.weights.specs.Value.{AtMost};

use sheet::Card;
use weights::value::{lesser, read_value};

// The norm of every reached kind, cut one past the limit; 0 for one that has none, for a kind that is out, and past the card's kinds.
pub fn kind_norms(sheet: &[u8], card: Card, reached: &[bool; 32]) -> [u32; 32]
    requires reads { Reads sheet.now card }
    requires by_index { (k : ℕ) → get_or reached.now k false ≡ model.reached (card_of sheet.now) k }
    ensures { result ≡ cut_norms sheet.now }
{
    let mut values = [0u32; 32];
    for _turn in 0..card.kinds {
        let next = sweep(sheet, card, reached, &values);
        if next == values {
            return values;
        }
        values = next;
    }
    values
}

// The values of the kinds after one more sweep: the lines of reached kinds are taken from the last to the first, each for its own kind. Of any other line the kind alone is read.
fn sweep(sheet: &[u8], card: Card, reached: &[bool; 32], values: &[u32; 32]) -> [u32; 32]
    requires reads { Reads sheet.now card }
    requires by_index { (k : ℕ) → get_or reached.now k false ≡ model.reached (card_of sheet.now) k }
    requires at_most { AtMost (suc norm_limit) values.now }
    ensures { result ≡ sweep_of sheet.now (at values.now) }
{
    let mut next = [0u32; 32];
    for j in (0..card.lines).rev() {
        let kind = card.line_kind(sheet, j);
        if reached[kind] {
            let value = read_value(values, card.line_counts(sheet, j));
            let held = next[kind];
            next[kind] = lesser(value, held);
        }
    }
    next
}
