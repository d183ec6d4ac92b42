// Tables of marks: for each kind the classes of its lines, and so which classes of lines a field may use.
ghost use Rattle.std.specs.Prelude.{◌≡◌, true, false, List, ◌↔◌, ◌⊎◌, ℕ, ◌+◌, ◌*◌, ◌≤◌, length, get_or, replicate};
ghost use Rattle.model.specs.Field.{at};
ghost use Rattle.tables.specs.Lines.{lines_in, kind_in, LineTable};
ghost use Rattle.tables.specs.Class.{MarksTell, marks_part, KindMarks};

use crate::lines::kind_of;
use crate::table::part_of;

// Marks for each kind the classes of its lines, in a table that has no marks.
pub fn kind_marks(lines: &[u8], classes: &[u8], marks: &mut [bool])
    requires line_table { LineTable lines.now × (lines_in lines.now ≤ length classes.now) }
    requires marks_value { marks.old ≡ replicate 8192 false }
    ensures { KindMarks lines.now classes.now marks.new }
{
    let count = lines.len() / 3;
    for line in 0..count {
        let start = kind_of(lines, line) * 256;
        marks[start + usize::from(classes[line])] = true;
    }
}

// The marks of a kind, as a part of the table.
pub fn marks_of_kind(marks: &[bool], kind: usize) -> &[bool]
    requires { kind * 256 + 256 ≤ length marks.now }
    ensures { result.now ≡ marks_part marks.now kind }
{
    part_of::<bool, 256>(marks, kind)
}

// Adds marks to others.
fn add_marks(sum: &mut [bool], more: &[bool])
    requires { length more.now ≤ length sum.old }
    ensures { (x : ℕ) → (get_or sum.new x false ≡ true) ↔ ((get_or sum.old x false ≡ true) ⊎ (get_or more.now x false ≡ true)) }
{
    for (x, mark) in more.iter().enumerate() {
        sum[x] |= *mark;
    }
}

// The classes of the lines that a field may use: x is marked just when some line that it may use has class x.
pub fn marks_of_field(marks: &[bool], field: &[u32]) -> [bool; 256]
    requires { (length marks.now ≡ 8192) × (length field.now ≤ 32) }
    ensures { (lines classes : List ℕ) → KindMarks lines classes marks.now → MarksTell (kind_in lines) (at classes) (at field.now) (lines_in lines) result }
{
    let mut sum = [false; 256];
    for (kind, count) in field.iter().enumerate() {
        if 0 < *count {
            add_marks(&mut sum, marks_of_kind(marks, kind));
        }
    }
    sum
}
