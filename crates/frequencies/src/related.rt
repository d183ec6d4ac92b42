// How many of the fields of a size each stage relates to a field of an accepted sheet.
ghost use Rattle.std.specs.Prelude.{List, ◌≡◌, ℕ, ◌^◌, ◌≤◌, ◌<◌, length};
ghost use Rattle.model.specs.Sense.{plain};
ghost use Rattle.model.specs.Field.{at, times, unit};
ghost use Rattle.model.specs.Card.{reached_kinds};
ghost use Rattle.model.specs.Limits.{most_kinds, most_tokens};
ghost use Rattle.model.specs.Sheet.{card_of, field_of};
ghost use Rattle.model.specs.Refusal.{Accepted};
ghost use Rattle.theory.specs.Frequencies.{related_to};
ghost use Rattle.sheet.specs.Reader.{Reads};
ghost use Rattle.norms.specs.Norms.{Accepts};
ghost use Rattle.tables.specs.Table.{row_in};
ghost use Rattle.shelf.specs.Kinds.{InOrder};
ghost use Rattle.stages.specs.Kept.{form_before};
ghost use Rattle.stages.specs.Settle.{IsSettled};
ghost use Rattle.frequencies.specs.Related.{RowLowered, RowsLowered, RowsAt};

use copies::{widen, write};
use row_sums::count::count_fields;
use sheet::Card;
use stages::kept::form_before;
use stages::parting::field_form;
use stages::reached::settle_reached;
use stages::settle::Settled;
use tables::sense::Sense;
use tables::table::row_of;
use weights::fields::field_norm;

// A table of rows of which each has the kind's norm as its first count and no other: norms add up as these rows do.
fn norm_rows(norms: &[u32; 32]) -> [u64; 1024]
    ensures { (k : ℕ) → k < most_kinds → row_in result k ≡ times (at norms.now k) (unit 0) }
{
    let mut table = [0u64; 1024];
    for kind in 0..32 {
        table[kind * 32] = u64::from(norms[kind]);
    }
    table
}

// How many of the fields stage 0 relates to the given one: those of its norm.
fn count_norms(
    sheet: &[u8],
    card: Card,
    norms: [u32; 32],
    kinds: &[usize],
    field: usize,
    size: usize,
) -> u64
    requires accepts { Accepts sheet.now card norms }
    requires kinds_value { (kinds.now ≡ reached_kinds (card_of sheet.now)) × InOrder kinds.now }
    requires field_lt_fields { (field < card.fields) × (size ≤ most_tokens) }
    ensures { result ≡ related_to (card_of sheet.now) (field_of sheet.now field) size 0 }
{
    let rows = norm_rows(&norms);
    let mut counts = [0u64; 32];
    counts[0] = field_norm(card.kinds, norms, card.field(sheet, field));
    count_fields(&rows, kinds, size, &counts)
}

// Puts the row of a kind at the stage before in the place of that at a stage.
fn lower_row(rows: &mut [u64], kind: usize, since: &[usize], before: &[u32], stage: usize)
    requires rows_len { (length rows.old ≡ 1024) × (length since.now ≡ most_kinds) × (length before.now ≡ 1024) × (kind < most_kinds) }
    requires by_index { (j : ℕ) → form_before since.now before.now stage (row_in rows.old kind) j < 2 ^ 64 }
    ensures { RowLowered since.now before.now stage kind rows.old rows.new }
{
    let row = form_before(row_of(rows, kind), since, before, stage);
    let start = kind * 32;
    let end = start + 32;
    write(&row, &mut rows[start..end]);
}

// The rows of the kinds at the stage before, from those at a stage.
fn lower_rows(rows: &mut [u64], kinds: &[usize], since: &[usize], before: &[u32], stage: usize)
    requires in_order { InOrder kinds.now }
    requires rows_len { (length rows.old ≡ 1024) × (length since.now ≡ most_kinds) × (length before.now ≡ 1024) }
    requires by_index { (x j : ℕ) → x < length kinds.now → form_before since.now before.now stage (row_in rows.old (at kinds.now x)) j < 2 ^ 64 }
    ensures { RowsLowered kinds.now since.now before.now stage rows.old rows.new }
{
    for i in 0..kinds.len() {
        lower_row(rows, kinds[i], since, before, stage);
    }
}

// How many of the fields each stage from 1 up relates to the given one, by the rows of the settled stage and the form of the field there. Every later stage relates what the settled one does.
fn count_forms(
    settled: &Settled,
    rows: [u64; 1024],
    form: [u64; 32],
    kinds: &[usize],
    size: usize,
) -> [u64; 33]
    requires le_stage { (1 ≤ settled.now.stage) × (settled.now.stage ≤ most_kinds) × (size ≤ most_tokens) }
    requires by_index { (s : List ℕ) × (i : ℕ) × RowsAt s i settled.now.stage kinds.now settled.now.base.since settled.now.before rows form }
    ensures by_index_2 { (s : List ℕ) (i : ℕ) → RowsAt s i settled.now.stage kinds.now settled.now.base.since settled.now.before rows form → (q : ℕ) → 1 ≤ q → q ≤ settled.now.stage → at result q ≡ related_to (card_of s) (field_of s i) size q }
    ensures by_index_3 { (s : List ℕ) (i : ℕ) → RowsAt s i settled.now.stage kinds.now settled.now.base.since settled.now.before rows form → (q : ℕ) → settled.now.stage ≤ q → q ≤ most_kinds → at result q ≡ related_to (card_of s) (field_of s i) size settled.now.stage }
{
    let mut table = rows;
    let mut given = form;
    let mut related = [count_fields(&table, kinds, size, &given); 33];
    for t in (1..settled.stage).rev() {
        lower_rows(
            &mut table,
            kinds,
            &settled.base.since,
            &settled.before,
            t + 1,
        );
        given = form_before(&given, &settled.base.since, &settled.before, t + 1);
        related[t] = count_fields(&table, kinds, size, &given);
    }
    related
}

// How many of the fields of a size, over the reached kinds, each stage from 1 to 32 relates to a field of a settled sheet.
fn count_settled(
    sheet: &[u8],
    card: Card,
    settled: &Settled,
    kinds: &[usize],
    field: usize,
    size: usize,
) -> [u64; 33]
    requires reads { Reads sheet.now card × Accepted sheet.now }
    requires settled { IsSettled plain sheet.now settled.now }
    requires kinds_value { (kinds.now ≡ reached_kinds (card_of sheet.now)) × InOrder kinds.now }
    requires field_lt_fields { (field < card.fields) × (size ≤ most_tokens) }
    ensures { (q : ℕ) → 1 ≤ q → q ≤ most_kinds → at result q ≡ related_to (card_of sheet.now) (field_of sheet.now field) size q }
{
    let form = field_form(sheet, card, &settled.base.rows, field);
    let table: [u64; 1024] = widen(&settled.base.rows);
    count_forms(settled, table, form, kinds, size)
}

// How many of the fields of a size, over the reached kinds, each stage up to 32 relates to a field of an accepted sheet. Where none has the norm of the field no stage relates any, and nothing is settled.
pub fn related_fields(
    sheet: &[u8],
    card: Card,
    norms: [u32; 32],
    kinds: &[usize],
    field: usize,
    size: usize,
) -> [u64; 33]
    requires accepts { Accepts sheet.now card norms }
    requires kinds_value { (kinds.now ≡ reached_kinds (card_of sheet.now)) × InOrder kinds.now }
    requires field_lt_fields { (field < card.fields) × (size ≤ most_tokens) }
    ensures { (q : ℕ) → q ≤ most_kinds → at result q ≡ related_to (card_of sheet.now) (field_of sheet.now field) size q }
{
    let start = count_norms(sheet, card, norms, kinds, field, size);
    if start == 0 {
        return [0u64; 33];
    }
    let mut settled = Settled::new();
    settle_reached(Sense::Plain, sheet, card, norms, &mut settled);
    let mut related = count_settled(sheet, card, &settled, kinds, field, size);
    related[0] = start;
    related
}
