// The row of a kind at a stage: the first candidate that passes, or the kind itself.
ghost use Rattle.std.specs.Prelude.{◌≡◌, true, List, ◌↔◌, ℕ, suc, ◌^◌, ◌≤◌, ◌<◌, length};
ghost use Rattle.model.specs.Base.{stage_row_in};
ghost use Rattle.model.specs.Field.{unit};
ghost use Rattle.model.specs.Limits.{most_kinds};
ghost use Rattle.model.specs.Sheet.{card_of};
ghost use Rattle.tables.specs.Table.{Under, row_in, CandidateIs};
ghost use Rattle.tables.specs.Lines.{lines_in, kind_in, LineTable};
ghost use Rattle.tables.specs.Match.{Lists, MatchTables, UsableIn};
ghost use Rattle.tables.specs.Senses.{sense_of};
ghost use Rattle.tables.specs.Class.{KindMarks};
ghost use Rattle.rows.specs.Forms.{OthersKept, RowSet};
ghost use Rattle.rows.specs.Row.{Suits};
ghost use Rattle.rows.specs.StageRows.{StageGiven, RowSought};

use row_tests::expansion::one_token;
use row_tests::passes::passes;
use tables::effect::candidate;
use tables::effects::Effects;
use tables::lines::{code_of, kind_of, lowers};
use tables::sense::Sense;
use tables::table::{is_atom, row_of, set_row};

// Whether the other line has the own line's class, lowers the norm, reads the own line's code, and is of an atom.
fn suits(lines: &[u8], classes: &[u8], rows: &[u32], own: usize, other: usize) -> bool
    requires line_table { LineTable lines.now × (lines_in lines.now ≤ length classes.now) × (length rows.now ≡ 1024) }
    requires own_bound { (own < lines_in lines.now) × (other < lines_in lines.now) }
    ensures { (result ≡ true) ↔ Suits lines.now classes.now rows.now own other }
{
    classes[other] == classes[own]
        && lowers(lines, other)
        && code_of(lines, other) == code_of(lines, own)
        && is_atom(rows, kind_of(lines, other))
}

// The candidate that two lines tell, if there is one: the other's kind with what the own line leaves, less what the other leaves, in atoms.
fn told(lines: &[u8], forms: &[u64], own: usize, other: usize) -> Option<[u32; 32]>
    requires line_table { LineTable lines.now × (length forms.now ≡ 8192) × Under (2 ^ 63) forms.now }
    requires own_bound { (own < lines_in lines.now) × (other < lines_in lines.now) }
    ensures { CandidateIs (row_in forms.now own) (row_in forms.now other) (kind_in lines.now other) result }
{
    let kind = kind_of(lines, other);
    candidate(row_of(forms, own), row_of(forms, other), kind)
}

// Makes a kind its own row.
pub fn set_atom(rows: &mut [u32], kind: usize)
    requires { (length rows.old ≡ 1024) × (kind < most_kinds) }
    ensures { RowSet (unit kind) kind rows.old rows.new }
{
    let token = one_token(kind);
    set_row(rows, kind, &token);
}

// Sets the row of a kind, of those that the first of its own lowering lines tells: each candidate is set in the table and tested there. Where none passes, the kind is its own row.
pub fn told_row(
    sense: Sense,
    lines: &[u8],
    classes: &[u8],
    marks: &[bool],
    rows: &mut [u32],
    forms: &[u64],
    own: &[u8],
    kind: usize,
)
    requires tables { MatchTables lines.now rows.old forms.now }
    requires kind_lt_most_kinds { (kind < most_kinds) × (lines_in lines.now ≤ length classes.now) }
    requires kind_marks { KindMarks lines.now classes.now marks.now }
    requires lists { Lists (UsableIn lines.now (unit kind)) own.now × (0 < length own.now) }
    ensures others_kept { OthersKept kind rows.old rows.new }
    ensures by_index { (s : List ℕ) (t : ℕ) → StageGiven (sense_of sense) s t lines.now classes.now → RowSought (sense_of sense) s t kind rows.old forms.now → row_in rows.new kind ≡ stage_row_in (sense_of sense) (card_of s) (suc t) kind }
{
    let line = usize::from(own[0]);
    for other in 0..lines.len() / 3 {
        if suits(lines, classes, rows, line, other) {
            if let Some(counts) = told(lines, forms, line, other) {
                set_row(rows, kind, &counts);
                let effects = Effects::new(lines, rows, forms);
                if passes(sense, &effects, marks, own, kind) {
                    return;
                }
            }
        }
    }
    set_atom(rows, kind);
}
