// The least stage that parts two fields of a settled sheet. Stage 0 goes by what the sense asks them to share, every later stage by their forms.
ghost use Rattle.std.specs.Prelude.{◌≡◌, true, List, ◌↔◌, ℕ, ◌≤◌, ◌<◌, length};
ghost use Rattle.model.specs.Field.{at};
ghost use Rattle.model.specs.Norm.{kind_norm, norm};
ghost use Rattle.model.specs.Base.{settled_stage_in};
ghost use Rattle.model.specs.Sheet.{kind_count, card_of, field_of};
ghost use Rattle.model.specs.Limits.{most_kinds};
ghost use Rattle.sheet.specs.Reader.{Reads};
ghost use Rattle.norms.specs.Norms.{Accepts};
ghost use Rattle.tables.specs.Table.{form_in};
ghost use Rattle.model.specs.Sense as model;
ghost use Rattle.model.specs.Sense.{total};
ghost use Rattle.theory.specs.Stages.{Start};
ghost use Rattle.tables.specs.Senses.{sense_of};
ghost use Rattle.stages.specs.Settle.{IsSettled};
ghost use Rattle.stages.specs.Parting.{parted_by, FieldsFit, FormsPart, LeastPart};

use crate::kept::form_before;
use crate::settle::Settled;
use sheet::Card;
use tables::sense::Sense;
use tables::table::form_of_field;
use weights::fields::{field_norm, field_tokens};

// The decomposition of a field, by the rows of a table.
pub fn field_form(sheet: &[u8], card: Card, rows: &[u32], field: usize) -> [u64; 32]
    requires reads { Reads sheet.now card }
    requires field_lt_fields { field < card.fields }
    requires rows_len { (length rows.now ≡ 1024) × FieldsFit sheet.now rows.now }
    ensures { at result ≡ form_in (kind_count sheet.now) rows.now (field_of sheet.now field) }
{
    let kinds = card.kinds;
    let field = card.field(sheet, field);
    let mut form = [0u64; 32];
    form_of_field(&field[..kinds], rows, &mut form);
    form
}

// Whether two fields have one norm.
fn same_norm(sheet: &[u8], card: Card, norms: [u32; 32], first: usize, second: usize) -> bool
    requires accepts { Accepts sheet.now card norms }
    requires first_lt_fields { (first < card.fields) × (second < card.fields) }
    ensures { (result ≡ true) ↔ (norm (card_of sheet.now) (field_of sheet.now first) ≡ norm (card_of sheet.now) (field_of sheet.now second)) }
{
    let kinds = card.kinds;
    let one = field_norm(kinds, norms, card.field(sheet, first));
    let other = field_norm(kinds, norms, card.field(sheet, second));
    one == other
}

// Whether two fields have one total: as many tokens.
fn same_total(sheet: &[u8], card: Card, first: usize, second: usize) -> bool
    requires reads { Reads sheet.now card }
    requires first_lt_fields { (first < card.fields) × (second < card.fields) }
    ensures { (result ≡ true) ↔ (total (card_of sheet.now) (field_of sheet.now first) ≡ total (card_of sheet.now) (field_of sheet.now second)) }
{
    let kinds = card.kinds;
    let one = field_tokens(kinds, card.field(sheet, first));
    let other = field_tokens(kinds, card.field(sheet, second));
    one == other
}

// Whether stage 0 relates two fields: they share their norm, and in the finer sense their total.
fn start_relates(
    sense: Sense,
    sheet: &[u8],
    card: Card,
    norms: [u32; 32],
    first: usize,
    second: usize,
) -> bool
    requires accepts { Accepts sheet.now card norms }
    requires first_lt_fields { (first < card.fields) × (second < card.fields) }
    ensures { (result ≡ true) ↔ Start (sense_of sense) (card_of sheet.now) (kind_norm (card_of sheet.now)) (field_of sheet.now first) (field_of sheet.now second) }
{
    if same_norm(sheet, card, norms, first, second) {
        return match sense {
            Sense::Plain => true,
            Sense::Finer => same_total(sheet, card, first, second),
        };
    }
    false
}

// The least stage from 1 up at which the forms of two fields differ, where those of the settled stage do: from stage to stage down, up to the first at which they are the same.
fn parting_form(settled: &Settled, first: [u64; 32], second: [u64; 32]) -> usize
    requires le_stage { (1 ≤ settled.now.stage) × (settled.now.stage ≤ most_kinds) }
    requires by_index { (sense : model.Sense) × (s : List ℕ) × (i : ℕ) × (j : ℕ) × FormsPart sense s settled.now.stage i j settled.now.base.since settled.now.before first second }
    ensures { (sense : model.Sense) (s : List ℕ) (i j : ℕ) → FormsPart sense s settled.now.stage i j settled.now.base.since settled.now.before first second → LeastPart sense s settled.now.stage i j result }
{
    let mut one = first;
    let mut other = second;
    let mut t = settled.stage;
    // A while: each turn goes to the stage before, with the forms there.
    while 1 < t {
        one = form_before(&one, &settled.base.since, &settled.before, t);
        other = form_before(&other, &settled.base.since, &settled.before, t);
        if one == other {
            return t;
        }
        t -= 1;
    }
    t
}

// The least stage, up to the settled one, that does not relate two fields; one more than that where all of them relate the two.
pub fn parted(
    sense: Sense,
    sheet: &[u8],
    card: Card,
    norms: [u32; 32],
    settled: &Settled,
    first: usize,
    second: usize,
) -> usize
    requires accepts { Accepts sheet.now card norms }
    requires settled { IsSettled (sense_of sense) sheet.now settled.now }
    requires first_lt_fields { (first < card.fields) × (second < card.fields) }
    ensures { result ≡ parted_by (sense_of sense) sheet.now (settled_stage_in (sense_of sense) (card_of sheet.now)) first second }
{
    if start_relates(sense, sheet, card, norms, first, second) {
        let one = field_form(sheet, card, &settled.base.rows, first);
        let other = field_form(sheet, card, &settled.base.rows, second);
        if one == other {
            return settled.stage + 1;
        }
        return parting_form(settled, one, other);
    }
    0
}
