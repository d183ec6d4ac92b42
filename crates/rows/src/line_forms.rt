// The forms of what the lines leave: a flat table, one row of 32 counts to a line, by the rows of a base.
ghost use Rattle.std.specs.Prelude.{◌≡◌, ℕ, ◌^◌, ◌≤◌, ◌<◌, length};
ghost use Rattle.model.specs.Field.{unit};
ghost use Rattle.model.specs.Limits.{most_kinds};
ghost use Rattle.model.specs.Sheet.{kind_count, line_of};
ghost use Rattle.sheet.specs.Reader.{Reads};
ghost use Rattle.tables.specs.Table.{Under, Atoms, form_in};
ghost use Rattle.tables.specs.Lines.{lines_in, LineTable};
ghost use Rattle.tables.specs.Match.{Among, Lists, UsableIn};
ghost use Rattle.rows.specs.Forms.{RowSet, LoweringForms, AllForms, ListForms, KindForms};

use row_tests::expansion::one_token;
use row_tests::norm_reducing::usable_lines;
use sheet::Card;
use tables::lines::lowers;
use tables::table::form_of_counts;

// The form of what a line leaves.
fn line_form(sheet: &[u8], card: Card, rows: &[u32], forms: &mut [u64], line: usize)
    requires reads { Reads sheet.now card }
    requires rows_len { (length rows.now ≡ 1024) × (length forms.old ≡ 8192) }
    requires atoms { Atoms rows.now (kind_count sheet.now) }
    requires line_lt_lines { line < card.lines }
    requires under { Under (2 ^ 63) forms.old }
    ensures row_set { RowSet (form_in (kind_count sheet.now) rows.now (line_of sheet.now line).left) line forms.old forms.new }
    ensures stays_under { Under (2 ^ 63) forms.new }
{
    let start = line * 32;
    let end = start + 32;
    form_of_counts(card.line_counts(sheet, line), rows, &mut forms[start..end]);
}

// The forms of what all lines leave, where those of the lines that lower the norm are known.
pub fn all_forms(sheet: &[u8], card: Card, lines: &[u8], rows: &[u32], forms: &mut [u64])
    requires reads { Reads sheet.now card }
    requires lines_value { lines_in lines.now ≡ card.lines }
    requires rows_len { (length rows.now ≡ 1024) × (length forms.old ≡ 8192) }
    requires atoms { Atoms rows.now (kind_count sheet.now) }
    requires under { Under (2 ^ 63) forms.old }
    requires lowering_forms { LoweringForms sheet.now rows.now lines.now forms.old }
    ensures { AllForms sheet.now rows.now forms.new }
{
    for line in 0..card.lines {
        if !lowers(lines, line) {
            line_form(sheet, card, rows, forms, line);
        }
    }
}

// The forms of what the lines of a list leave.
fn list_forms(sheet: &[u8], card: Card, rows: &[u32], forms: &mut [u64], list: &[u8])
    requires reads { Reads sheet.now card }
    requires rows_len { (length rows.now ≡ 1024) × (length forms.old ≡ 8192) }
    requires atoms { Atoms rows.now (kind_count sheet.now) }
    requires list_within { (j : ℕ) → Among list.now j → j < card.lines }
    requires under { Under (2 ^ 63) forms.old }
    ensures { ListForms sheet.now rows.now list.now forms.old forms.new }
{
    for line in list {
        line_form(sheet, card, rows, forms, usize::from(*line));
    }
}

// The forms of what the lines of a kind that lower the norm leave. These lines are listed in the buffer.
pub fn kind_forms<'a>(
    sheet: &[u8],
    card: Card,
    lines: &[u8],
    rows: &[u32],
    forms: &mut [u64],
    list: &'a mut [u8],
    kind: usize,
) -> &'a [u8]
    requires reads { Reads sheet.now card }
    requires line_table { LineTable lines.now × (lines_in lines.now ≡ card.lines) × (lines_in lines.now ≤ length list.old) }
    requires rows_len { (length rows.now ≡ 1024) × (length forms.old ≡ 8192) × (kind < most_kinds) }
    requires atoms { Atoms rows.now (kind_count sheet.now) }
    requires under { Under (2 ^ 63) forms.old }
    ensures own { (length result.now ≤ length list.old) × Lists (UsableIn lines.now (unit kind)) result.now }
    ensures kind_forms { KindForms sheet.now rows.now lines.now kind forms.old forms.new }
{
    let token = one_token(kind);
    let own = usable_lines(lines, &token, list);
    list_forms(sheet, card, rows, forms, own);
    own
}
