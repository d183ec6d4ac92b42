// What a line does: which fields may use it, and what it leaves of a field.
ghost use Rattle.std.specs.Prelude.{◌≡◌, ◌+◌, ◌-◌, ◌≤◌, ◌<◌, ltb, eqb};
ghost use Rattle.model.specs.Finite.{both};
ghost use Rattle.model.specs.Field.{unit, at};
ghost use Rattle.model.specs.Sheet.{kind_count, line_of};
ghost use Rattle.second_reader.specs.Fields.{Fits, After};

use crate::reader::{kinds, line_code, line_kind, line_left};

// "A field with a token of kind X may use a line of X": whether the field may use the line.
pub fn may_use(sheet: &[u8], line: usize, field: &[usize; 32]) -> bool
    requires sheet_bound { (kind_count sheet.now ≤ 32) × (line < 65536) }
    requires fits { Fits sheet.now 0 field.now }
    ensures { result ≡ ltb 0 (at field.now (line_of sheet.now line).kind) }
{
    let kind = line_kind(sheet, line);
    kind < 32 && 0 < field[kind]
}

// "A reply is a line of the same code that the other side may use": whether the line replies to the challenge by the line `challenge`.
pub fn may_reply(sheet: &[u8], line: usize, challenge: usize, field: &[usize; 32]) -> bool
    requires sheet_bound { (kind_count sheet.now ≤ 32) × (line < 65536) × (challenge < 65536) }
    requires fits { Fits sheet.now 0 field.now }
    ensures { result ≡ both (ltb 0 (at field.now (line_of sheet.now line).kind)) (eqb (line_of sheet.now line).code (line_of sheet.now challenge).code) }
{
    may_use(sheet, line, field) && line_code(sheet, line) == line_code(sheet, challenge)
}

// What stands for tokens of a kind after the line is used: "one X goes, the counts come".
fn count_after(sheet: &[u8], line: usize, kind: usize, tokens: usize) -> usize
    requires { (kind_count sheet.now ≤ 32) × (line < 65536) × (kind < kind_count sheet.now) × (tokens < 1000000) }
    ensures { (result ≡ (tokens - unit (line_of sheet.now line).kind kind) + (line_of sheet.now line).left kind) × (result ≤ tokens + 255) }
{
    let left = line_left(sheet, line, kind);
    if kind != line_kind(sheet, line) {
        return tokens + left;
    }
    if tokens == 0 {
        return left;
    }
    tokens - 1 + left
}

// The field after the line is used.
pub fn field_after(sheet: &[u8], line: usize, field: &[usize; 32]) -> [usize; 32]
    requires sheet_bound { (kind_count sheet.now ≤ 32) × (line < 65536) }
    requires fits { Fits sheet.now 1 field.now }
    ensures { After sheet.now line field.now result }
{
    let mut after = *field;
    for kind in 0..kinds(sheet) {
        after[kind] = count_after(sheet, line, kind, field[kind]);
    }
    after
}
