// What is kept of the stages: of each kind its mark, the first stage at which its row became the one that it is, and its row at the stage before that one. So the forms of a field at all stages can
// be had once the settled one is found: a kind that is an atom at a stage is one at every later stage, and a form at the stage before is got by putting its row there for each atom that is new.
ghost use Rattle.std.specs.Prelude.{◌≡◌, ℕ, ◌+◌, ◌*◌, ◌^◌, ◌≤◌, ◌<◌, length};
ghost use Rattle.model.specs.Field.{◌⊕◌, times, at};
ghost use Rattle.model.specs.Limits.{most_kinds};
ghost use Rattle.stages.specs.Kept.{row_before, form_before, KindKept, KeptFrom};

use tables::table::{add_times, row_of, set_row};

// Keeps one kind: where its row is not the one of the stage before, the stage, and the row that it had there.
fn keep_kind(
    before: &[u32],
    after: &[u32],
    stage: usize,
    kind: usize,
    since: &mut [usize],
    rows: &mut [u32],
)
    requires before_len { (length before.now ≡ 1024) × (length after.now ≡ 1024) × (length rows.old ≡ 1024) × (length since.old ≡ most_kinds) }
    requires kind_lt_most_kinds { kind < most_kinds }
    ensures { KindKept before.now after.now stage kind since.old rows.old since.new rows.new }
{
    let old = row_of(before, kind);
    if old == row_of(after, kind) {
        return;
    }
    since[kind] = stage;
    set_row(rows, kind, old);
}

// Keeps what is new at a stage, of so many kinds, by its rows and those of the stage before.
pub fn keep_stage(
    kinds: usize,
    before: &[u32],
    after: &[u32],
    stage: usize,
    since: &mut [usize],
    rows: &mut [u32],
)
    requires before_len { (length before.now ≡ 1024) × (length after.now ≡ 1024) × (length rows.old ≡ 1024) × (length since.old ≡ most_kinds) }
    requires kinds_le_most_kinds { kinds ≤ most_kinds }
    ensures { KeptFrom before.now after.now stage kinds since.old rows.old since.new rows.new }
{
    for kind in 0..kinds {
        keep_kind(before, after, stage, kind, since, rows);
    }
}

// Adds so many tokens of a kind to the sum, as the stage before has them.
fn add_before(sum: &mut [u64], since: &[usize], rows: &[u32], stage: usize, kind: usize, count: u64)
    requires sum_len { (length sum.old ≡ most_kinds) × (length since.now ≡ most_kinds) × (length rows.now ≡ 1024) × (kind < most_kinds) }
    requires by_index { (j : ℕ) → at sum.old j + count * row_before since.now rows.now stage kind j < 2 ^ 64 }
    ensures { at sum.new ≡ at sum.old ⊕ times count (row_before since.now rows.now stage kind) }
{
    let from = since[kind];
    if from == stage {
        add_times(sum, row_of(rows, kind), count);
        return;
    }
    sum[kind] += count;
}

// The form at the stage before, from that at a stage.
pub fn form_before(form: &[u64], since: &[usize], rows: &[u32], stage: usize) -> [u64; 32]
    requires form_len { (length form.now ≡ most_kinds) × (length since.now ≡ most_kinds) × (length rows.now ≡ 1024) }
    requires by_index { (j : ℕ) → form_before since.now rows.now stage (at form.now) j < 2 ^ 64 }
    ensures { at result ≡ form_before since.now rows.now stage (at form.now) }
{
    let mut sum = [0u64; 32];
    for (kind, count) in form.iter().enumerate() {
        add_before(&mut sum, since, rows, stage, kind, *count);
    }
    sum
}
