// The reached kinds, marked in as many passes over all lines as there are kinds.
ghost use Rattle.std.specs.Prelude.{◌≤◌, ◌<◌};
ghost use Rattle.model.specs.Sheet.{kind_count};

use second_reader::{field_count, fields, kinds, line_kind, line_left, lines};

// The kinds that a field holds are marked.
fn mark_field(sheet: &[u8], field: usize, marks: &mut [bool; 32])
    requires { (kind_count sheet.now ≤ 32) × (field < 65536) }
{
    for kind in 0..kinds(sheet) {
        if 0 < field_count(sheet, field, kind) {
            marks[kind] = true;
        }
    }
}

// The kinds that some field holds are marked.
fn mark_fields(sheet: &[u8], marks: &mut [bool; 32])
    requires { kind_count sheet.now ≤ 32 }
{
    for field in 0..fields(sheet) {
        mark_field(sheet, field, marks);
    }
}

// Whether a kind is marked.
pub fn marked(marks: &[bool; 32], kind: usize) -> bool {
    kind < 32 && marks[kind]
}

// The kinds that a line leaves are marked, where its own is.
fn mark_line(sheet: &[u8], line: usize, marks: &mut [bool; 32])
    requires { (kind_count sheet.now ≤ 32) × (line < 65536) }
{
    if !marked(marks, line_kind(sheet, line)) {
        return;
    }
    for kind in 0..kinds(sheet) {
        if 0 < line_left(sheet, line, kind) {
            marks[kind] = true;
        }
    }
}

// One pass over all lines.
fn mark_lines(sheet: &[u8], marks: &mut [bool; 32])
    requires { kind_count sheet.now ≤ 32 }
{
    for line in 0..lines(sheet) {
        mark_line(sheet, line, marks);
    }
}

// The marks of the reached kinds.
pub fn reached_marks(sheet: &[u8]) -> [bool; 32]
    requires { kind_count sheet.now ≤ 32 }
{
    let mut marks = [false; 32];
    mark_fields(sheet, &mut marks);
    for _ in 0..kinds(sheet) {
        mark_lines(sheet, &mut marks);
    }
    marks
}

// Whether some kind is not reached. A sheet of more than 32 kinds is not looked at.
pub fn part_used(sheet: &[u8]) -> bool {
    let count = kinds(sheet);
    if 32 < count {
        return false;
    }
    reached_marks(sheet)[..count].contains(&false)
}
