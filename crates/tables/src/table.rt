// Tables of rows, and the decomposition of counts by them.
ghost use Rattle.std.specs.Prelude.{◌≡◌, true, ◌↔◌, ℕ, ◌+◌, ◌*◌, ◌^◌, ◌≤◌, ◌<◌, length, take, drop, replicate};
ghost use Rattle.model.specs.Field.{none, ◌⊕◌, times, unit, at};
ghost use Rattle.model.specs.Limits.{most_kinds};
ghost use Rattle.tables.specs.Table.{row_part, row_in, Atoms, form_in, with_row};

// Adds count times the row to the sum.
pub fn add_times(sum: &mut [u64], row: &[u32], count: u64)
    requires row_in_bounds { length row.now ≤ length sum.old }
    requires by_index { (j : ℕ) → at sum.old j + count * at row.now j < 2 ^ 64 }
    ensures { at sum.new ≡ at sum.old ⊕ times count (at row.now) }
{
    if count == 0 {
        return;
    }
    for (i, each) in row.iter().enumerate() {
        sum[i] += count * u64::from(*each);
    }
}

// A row of a flat table whose rows are WIDTH long, as a part of it.
pub(crate) fn part_of<T, const WIDTH: usize>(table: &[T], row: usize) -> &[T]
    requires { row * WIDTH + WIDTH ≤ length table.now }
    ensures { result.now ≡ take WIDTH (drop (row * WIDTH) table.now) }
{
    let start = row * WIDTH;
    &table[start..start + WIDTH]
}

// A row of a table whose rows are 32 long: the row of a kind, or the form of what a line leaves.
pub fn row_of<T>(table: &[T], row: usize) -> &[T]
    requires { row * 32 + 32 ≤ length table.now }
    ensures { result.now ≡ row_part table.now row }
{
    part_of::<T, 32>(table, row)
}

// Whether a kind's own count in its row is 1: whether the kind is an atom.
pub fn is_atom(rows: &[u32], kind: usize) -> bool
    requires { (kind < most_kinds) × (length rows.now ≡ 1024) }
    ensures { (result ≡ true) ↔ (row_in rows.now kind kind ≡ 1) }
{
    rows[kind * 32 + kind] == 1
}

// Adds count times the row of a kind in a table to the sum. The row of an atom is the kind itself.
fn add_row(sum: &mut [u64], rows: &[u32], kind: usize, count: u64)
    requires kind_lt_most_kinds { (kind < most_kinds) × (length rows.now ≡ 1024) × (32 ≤ length sum.old) }
    requires kind_value { row_in rows.now kind kind ≡ 1 → row_in rows.now kind ≡ unit kind }
    requires by_index { (j : ℕ) → at sum.old j + count * row_in rows.now kind j < 2 ^ 64 }
    ensures { at sum.new ≡ at sum.old ⊕ times count (row_in rows.now kind) }
{
    if count == 0 {
        return;
    }
    if is_atom(rows, kind) {
        sum[kind] += count;
        return;
    }
    add_times(sum, row_of(rows, kind), count);
}

// Replaces the row of a kind in a table by the counts.
pub fn set_row(rows: &mut [u32], kind: usize, row: &[u32])
    requires { (kind * 32 + 32 ≤ length rows.old) × (length row.now ≡ 32) }
    ensures { rows.new ≡ with_row rows.old kind row.now }
{
    let start = kind * 32;
    rows[start..start + 32].copy_from_slice(row);
}

// The decomposition of the counts of a line, by the rows of a table. Not one generic function with `form_of_field`: this one takes the short cut of the atoms, which asks more of the rows.
pub fn form_of_counts(counts: &[u8], rows: &[u32], out: &mut [u64])
    requires counts_len_bound { (length counts.now ≤ most_kinds) × (length rows.now ≡ 1024) × (32 ≤ length out.old) }
    requires atoms { Atoms rows.now (length counts.now) }
    requires by_index { (j : ℕ) → form_in (length counts.now) rows.now (at counts.now) j < 2 ^ 64 }
    ensures { at out.new ≡ form_in (length counts.now) rows.now (at counts.now) }
{
    out.fill(0);
    for (k, count) in counts.iter().enumerate() {
        add_row(out, rows, k, u64::from(*count));
    }
}

// The decomposition of a field, by the rows of a table.
pub fn form_of_field(field: &[u32], rows: &[u32], out: &mut [u64])
    requires field_in_bounds { (length field.now * 32 ≤ length rows.now) × (32 ≤ length out.old) }
    requires by_index { (j : ℕ) → form_in (length field.now) rows.now (at field.now) j < 2 ^ 64 }
    ensures { at out.new ≡ form_in (length field.now) rows.now (at field.now) }
{
    out.fill(0);
    for (k, count) in field.iter().enumerate() {
        add_times(out, row_of(rows, k), u64::from(*count));
    }
}

// "The state by value holds up to 32 rows of 32 counts": one flat array, rows at kind times 32. And of each kind its mark: "The base now keeps, for each kind, the first stage, from 1 up, at which its row
// became the one" that it is, 0 for a kind that is out.
#[derive(Clone, Copy)]
pub struct Base {
    pub rows: [u32; 1024],
    pub since: [usize; 32],
}

impl Base {
    // No counts and no marks.
    pub fn new() -> Base
        ensures { (result.rows ≡ replicate 1024 0) × (result.since ≡ replicate most_kinds 0) }
    {
        Base {
            rows: [0u32; 1024],
            since: [0usize; 32],
        }
    }
}
