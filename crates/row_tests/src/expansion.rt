// Whether the rows of a stage satisfy expansion, by the classes of the lines.
ghost use Rattle.std.specs.Prelude.{◌≡◌, true, List, ◌↔◌, ℕ, ◌≤◌, ◌<◌, length};
ghost use Rattle.model.specs.Field.{unit, at};
ghost use Rattle.model.specs.Limits.{most_kinds};
ghost use Rattle.tables.specs.Table.{row_in, Atoms};
ghost use Rattle.tables.specs.Lines.{lines_in, LineTable};
ghost use Rattle.tables.specs.Class.{AlikeIn, KindMarks, RowsExpand};

use tables::marks::{kind_marks, marks_of_field, marks_of_kind};
use tables::table::{is_atom, row_of};

// One token of a kind, as counts.
pub fn one_token(kind: usize) -> [u32; 32]
    requires { kind < most_kinds }
    ensures { at result ≡ unit kind }
{
    let mut counts = [0u32; 32];
    counts[kind] = 1;
    counts
}

// Whether a kind and a field may use lines of the same classes.
pub fn uses_alike(marks: &[bool], kind: usize, field: &[u32]) -> bool
    requires { (length marks.now ≡ 8192) × (kind < most_kinds) × (length field.now ≤ most_kinds) }
    ensures { (lines classes : List ℕ) → KindMarks lines classes marks.now → (result ≡ true) ↔ AlikeIn lines classes (unit kind) (at field.now) }
{
    let other = marks_of_field(marks, field);
    marks_of_kind(marks, kind) == other.as_slice()
}

// Whether a kind, if it has a norm, and its row may use lines of the same classes. An atom is its own row.
fn row_expands(marks: &[bool], rows: &[u32], norms: &[u32], kind: usize) -> bool
    requires marks_len { (length marks.now ≡ 8192) × (length rows.now ≡ 1024) × (kind < most_kinds) × (kind < length norms.now) }
    requires kind_value { row_in rows.now kind kind ≡ 1 → row_in rows.now kind ≡ unit kind }
    ensures { (lines classes : List ℕ) → KindMarks lines classes marks.now → (result ≡ true) ↔ (0 < at norms.now kind → AlikeIn lines classes (unit kind) (row_in rows.now kind)) }
{
    let norm = norms[kind];
    if norm == 0 {
        return true;
    }
    if is_atom(rows, kind) {
        return true;
    }
    uses_alike(marks, kind, row_of(rows, kind))
}

// Whether each of this many kinds that has a norm, and its row, may use lines of the same classes: "every row must".
// Not inlined: its tables would stay on the stack of its caller.
#[inline(never)]
pub fn rows_expand(lines: &[u8], classes: &[u8], rows: &[u32], norms: &[u32], kinds: usize) -> bool
    requires line_table { LineTable lines.now × (lines_in lines.now ≤ length classes.now) }
    requires rows_len { (length rows.now ≡ 1024) × (kinds ≤ most_kinds) × (kinds ≤ length norms.now) }
    requires atoms { Atoms rows.now kinds }
    ensures { (result ≡ true) ↔ RowsExpand lines.now classes.now rows.now norms.now kinds }
{
    let mut marks = [false; 8192];
    kind_marks(lines, classes, &mut marks);
    for kind in 0..kinds {
        if !row_expands(&marks, rows, norms, kind) {
            return false;
        }
    }
    true
}
