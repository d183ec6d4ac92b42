// Norm-reducing expansion of a kind against its row in a table: "Norm-reducing expansion considers only reads that lower the norm, for challenge and reply alike."
ghost use Rattle.std.specs.Prelude.{◌≡◌, true, ◌↔◌, ℕ, ◌≤◌, ◌<◌, length};
ghost use Rattle.model.specs.Field.{unit, at};
ghost use Rattle.model.specs.Limits.{most_kinds};
ghost use Rattle.tables.specs.Lines.{lines_in, kind_in, LowersIn, LineTable};
ghost use Rattle.tables.specs.Match.{EachMatched, AllMatched, Among, Lists, MatchBy, UsableIn, Answered};

use tables::effects::Effects;
use tables::lines::{kind_of, lowers};
use tables::table::row_of;

// Whether a line lowers the norm and a field may use it.
fn is_usable(lines: &[u8], field: &[u32], line: usize) -> bool
    requires { LineTable lines.now × (length field.now ≡ 32) × (line < lines_in lines.now) }
    ensures { (result ≡ true) ↔ (LowersIn lines.now line × (0 < at field.now (kind_in lines.now line))) }
{
    0 < field[kind_of(lines, line)] && lowers(lines, line)
}

// The lines that lower the norm and that a field may use, listed in the buffer.
pub fn usable_lines<'a>(lines: &[u8], field: &[u32], list: &'a mut [u8]) -> &'a [u8]
    requires { LineTable lines.now × (length field.now ≡ 32) × (lines_in lines.now ≤ length list.old) }
    ensures { (length result.now ≤ length list.old) × Lists (UsableIn lines.now (at field.now)) result.now }
{
    let mut count = 0;
    for line in 0..lines.len() / 3 {
        if is_usable(lines, field, line) {
            list[count] = line as u8;
            count += 1;
        }
    }
    &list[..count]
}

// Whether some line of a list matches a line.
fn some_match(effects: &Effects, list: &[u8], line: usize) -> bool
    requires list_within { (j : ℕ) → Among list.now j → j < lines_in effects.now.lines }
    requires line_bound { line < lines_in effects.now.lines }
    ensures { (result ≡ true) ↔ ((j : ℕ) × Among list.now j × MatchBy effects.now line j) }
{
    list.iter()
        .any(|other| effects.matches(line, usize::from(*other)))
}

// Whether each line of a list has a match in another list.
fn each_matched(effects: &Effects, list: &[u8], others: &[u8]) -> bool
    requires list_within { (i : ℕ) → Among list.now i → i < lines_in effects.now.lines }
    requires others_within { (j : ℕ) → Among others.now j → j < lines_in effects.now.lines }
    ensures { (result ≡ true) ↔ EachMatched (MatchBy effects.now) (Among list.now) (Among others.now) }
{
    list.iter()
        .all(|line| some_match(effects, others, usize::from(*line)))
}

// Whether each line of either list has a match in the other. The lines of the longer list are the first to challenge: unless some have the same effect, the shorter has too few replies.
fn all_matched(effects: &Effects, list: &[u8], others: &[u8]) -> bool
    requires list_within { (i : ℕ) → Among list.now i → i < lines_in effects.now.lines }
    requires others_within { (j : ℕ) → Among others.now j → j < lines_in effects.now.lines }
    ensures { (result ≡ true) ↔ AllMatched (MatchBy effects.now) (Among list.now) (Among others.now) }
{
    if list.len() < others.len() {
        each_matched(effects, others, list) && each_matched(effects, list, others)
    } else {
        each_matched(effects, list, others) && each_matched(effects, others, list)
    }
}

// Whether every challenge of the kind or of its row that lowers the norm has a reply by the other that does. The kind's own lines that do are given.
pub fn all_answered(effects: &Effects, own: &[u8], kind: usize) -> bool
    requires kind_lt_most_kinds { kind < most_kinds }
    requires lists { Lists (UsableIn effects.now.lines (unit kind)) own.now }
    ensures { (result ≡ true) ↔ Answered effects.now.lines effects.now.rows effects.now.forms kind }
{
    let mut its = [0u8; 256];
    let others = usable_lines(effects.lines(), row_of(effects.rows(), kind), &mut its);
    all_matched(effects, own, others)
}
