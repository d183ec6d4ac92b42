// Whether the lines of a list have matches in another, where both lists are in order: one pass over both.
ghost use Rattle.std.specs.Prelude.{◌≡◌, true, ◌↔◌, ◌≤◌, ◌<◌, length};
ghost use Rattle.model.specs.Field.{at};
ghost use Rattle.model.specs.Limits.{most_lines};
ghost use Rattle.tables.specs.Lines.{lines_in};
ghost use Rattle.tables.specs.Match.{EachMatched, AllMatched, Among, MatchBy};
ghost use Rattle.ranks.specs.Order.{PrecedesBy, InOrder, LinesOf};
ghost use Rattle.ranks.specs.Skip.{FirstNotBefore};

use crate::precedes::precedes;
use crate::sort::sorted;
use tables::effects::Effects;

// How far the entries of a list, from `from` on, come before the line: the first place whose entry does not, and the end of the list where all do.
fn skip(effects: &Effects, others: &[u8], from: usize, line: usize) -> usize
    requires lines_of { LinesOf effects.now.lines others.now × (line < lines_in effects.now.lines) }
    requires from_in_bounds { from ≤ length others.now }
    ensures { FirstNotBefore (PrecedesBy effects.now) others.now from line result }
{
    for place in from..others.len() {
        let other = usize::from(others[place]);
        if !precedes(effects, other, line) {
            return place;
        }
    }
    others.len()
}

// Whether the list has an entry at the place, and the line matches it.
fn is_match_at(effects: &Effects, others: &[u8], place: usize, line: usize) -> bool
    requires lines_of { LinesOf effects.now.lines others.now × (line < lines_in effects.now.lines) }
    ensures { (result ≡ true) ↔ ((place < length others.now) × MatchBy effects.now line (at others.now place)) }
{
    if place < others.len() {
        let other = usize::from(others[place]);
        return effects.matches(line, other);
    }
    false
}

// Whether each line of a list has a match in another, where both lists are in order. The match of a line is sought from where that of the line before it was found: the entries that stand earlier come
// before both.
pub fn each_matched_in_order(effects: &Effects, list: &[u8], others: &[u8]) -> bool
    requires lines_of { LinesOf effects.now.lines list.now × LinesOf effects.now.lines others.now }
    requires in_order { InOrder (PrecedesBy effects.now) list.now × InOrder (PrecedesBy effects.now) others.now }
    ensures { (result ≡ true) ↔ EachMatched (MatchBy effects.now) (Among list.now) (Among others.now) }
{
    let mut reached = 0;
    for place in 0..list.len() {
        let line = usize::from(list[place]);
        reached = skip(effects, others, reached, line);
        if !is_match_at(effects, others, reached, line) {
            return false;
        }
    }
    true
}

// Whether each line of either list has a match in the other, where both lists are in order.
pub fn all_matched_in_order(effects: &Effects, list: &[u8], others: &[u8]) -> bool
    requires lines_of { LinesOf effects.now.lines list.now × LinesOf effects.now.lines others.now }
    requires in_order { InOrder (PrecedesBy effects.now) list.now × InOrder (PrecedesBy effects.now) others.now }
    ensures { (result ≡ true) ↔ AllMatched (MatchBy effects.now) (Among list.now) (Among others.now) }
{
    each_matched_in_order(effects, list, others) && each_matched_in_order(effects, others, list)
}

// Whether each line of either list has a match in the other: both are put in order first.
pub fn all_matched_sorted(effects: &Effects, list: &[u8], others: &[u8]) -> bool
    requires lines_of { LinesOf effects.now.lines list.now × LinesOf effects.now.lines others.now }
    requires list_len_bound { (length list.now ≤ most_lines) × (length others.now ≤ most_lines) }
    ensures { (result ≡ true) ↔ AllMatched (MatchBy effects.now) (Among list.now) (Among others.now) }
{
    let count = list.len();
    let its_count = others.len();
    let mine = sorted(effects, list);
    let its = sorted(effects, others);
    all_matched_in_order(effects, &mine[..count], &its[..its_count])
}
