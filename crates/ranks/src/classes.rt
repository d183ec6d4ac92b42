// The classes of the lines, by their order: each line is sought, by halves, among the first lines of the classes before it.
ghost use Rattle.std.specs.Prelude.{◌+◌, ◌≤◌, ◌<◌, length, take};
ghost use Rattle.tables.specs.Lines.{lines_in};
ghost use Rattle.tables.specs.Match.{Bounds, LeastMatch, TellsMatch, MatchBy};
ghost use Rattle.ranks.specs.Order.{PrecedesBy};
ghost use Rattle.ranks.specs.Insertion.{Place};
ghost use Rattle.ranks.specs.Firsts.{Firsts};

use crate::insert::insert;
use crate::place::place_of;
use tables::effects::Effects;

// The class of a line, by its place in the list of the first lines of the classes before it: the entry before the place, where the line matches it, and else the line itself.
fn class_at(effects: &Effects, list: &[u8], place: usize, line: usize) -> usize
    requires line_bound { line < lines_in effects.now.lines }
    requires firsts { Firsts (MatchBy effects.now) (PrecedesBy effects.now) list.now line }
    requires place { Place (PrecedesBy effects.now) list.now line place }
    ensures { LeastMatch (MatchBy effects.now) line result }
{
    if place == 0 {
        return line;
    }
    let other = usize::from(list[place - 1]);
    if effects.matches(other, line) {
        return other;
    }
    line
}

// The class of a line, and how many classes there are with it.
#[derive(Drop)]
struct Joined {
    class: usize,
    count: usize,
}

// The class of a line, by a list that begins with the first lines of the `count` classes before it. A line that begins a class is put to its place in the list.
fn join(effects: &Effects, list: &mut [u8; 256], count: usize, line: usize) -> Joined
    requires line_bound { (line < lines_in effects.now.lines) × (lines_in effects.now.lines ≤ length list.old) × (count ≤ line) }
    requires firsts { Firsts (MatchBy effects.now) (PrecedesBy effects.now) (take count list.old) line }
    ensures least_match { LeastMatch (MatchBy effects.now) line result.class }
    ensures count_bound { result.count ≤ line + 1 }
    ensures firsts_with_it { Firsts (MatchBy effects.now) (PrecedesBy effects.now) (take result.count list.new) (line + 1) }
{
    let place = place_of(effects, &list[..count], line);
    let class = class_at(effects, &list[..count], place, line);
    if class < line {
        return Joined { class, count };
    }
    insert(list, count, place, line as u8);
    Joined {
        class: line,
        count: count + 1,
    }
}

// The classes of all lines: two lines match just when their classes are the same number. The lines are taken by number, so that the first met of a class is the least.
pub fn ordered_classes(effects: &Effects) -> [u8; 256]
    ensures tells_match { TellsMatch (MatchBy effects.now) (lines_in effects.now.lines) result }
    ensures bounds { Bounds (MatchBy effects.now) (lines_in effects.now.lines) result }
{
    let count = effects.lines().len() / 3;
    let mut numbers = [0u8; 256];
    let mut list = [0u8; 256];
    let mut found = 0;
    for line in 0..count {
        let joined = join(effects, &mut list, found, line);
        numbers[line] = joined.class as u8;
        found = joined.count;
    }
    numbers
}

// From how many lines of one bound on the lines are put in order, so that a line's class is found by halves and not by a search of the lines before it.
const MANY: usize = 48;

// Whether many lines have the bound of the first, as all have at stage 1.
fn many_alike(bounds: &[u8]) -> bool {
    let Some(first) = bounds.first() else {
        return false;
    };
    MANY < bounds.iter().filter(|bound| *bound == first).count()
}

// The classes of all lines: two lines match just when their classes are the same number. No class is before the bound of its line.
pub fn classes_within(effects: &Effects, bounds: &[u8]) -> [u8; 256]
    requires lines_in_bounds { lines_in effects.now.lines ≤ length bounds.now }
    requires bounds { Bounds (MatchBy effects.now) (lines_in effects.now.lines) bounds.now }
    ensures tells_match { TellsMatch (MatchBy effects.now) (lines_in effects.now.lines) result }
    ensures class_bounds { Bounds (MatchBy effects.now) (lines_in effects.now.lines) result }
{
    let count = effects.lines().len() / 3;
    if many_alike(&bounds[..count]) {
        return ordered_classes(effects);
    }
    effects.classes(bounds)
}
