// The stages one after the other, up to the settled one.
ghost use Rattle.std.specs.Prelude.{◌≡◌, ℕ, suc, ◌≤◌, length, replicate};
ghost use Rattle.model.specs.Limits.{most_kinds};
ghost use Rattle.model.specs.Refusal.{Accepted};
ghost use Rattle.sheet.specs.Reader.{Reads};
ghost use Rattle.norms.specs.Norms.{Accepts};
ghost use Rattle.tables.specs.Lines.{lines_in};
ghost use Rattle.rows.specs.Stage.{BaseAt, Classes, BoundsAt, LinesAre};
ghost use Rattle.rows.specs.Forms.{FormTable};
ghost use Rattle.rows.specs.StageRows.{RowsFound};
ghost use Rattle.model.specs.Sense as model;
ghost use Rattle.tables.specs.Senses.{sense_of};
ghost use Rattle.stages.specs.Settle.{IsSettled};

use crate::kept::keep_stage;
use row_tests::expansion::rows_expand;
use rows::line_forms::all_forms;
use rows::line_table::line_table;
use rows::stage_rows::stage_rows;
use sheet::Card;
use tables::effects::Effects;
use tables::sense::Sense;
use tables::table::Base;

// "the final base" with its marks, "the settled stage", and in a flat table each kind's row at the stage before its mark.
#[derive(Clone, Copy)]
pub struct Settled {
    pub base: Base,
    pub stage: usize,
    pub before: [u32; 1024],
}

impl Settled {
    // No counts, no marks and no stage: a place for what is settled.
    pub fn new() -> Settled
        ensures base { (result.base.rows ≡ replicate 1024 0) × (result.base.since ≡ replicate most_kinds 0) }
        ensures kept { (result.stage ≡ 0) × (result.before ≡ replicate 1024 0) }
    {
        Settled {
            base: Base::new(),
            stage: 0,
            before: [0u32; 1024],
        }
    }
}

// The classes of the lines by the rows of a stage, none before the bound of its line. The table is used for the forms of what the lines leave.
fn line_classes(
    sheet: &[u8],
    card: Card,
    lines: &[u8],
    rows: &[u32],
    bounds: &[u8],
    forms: &mut [u64],
) -> [u8; 256]
    requires reads { Reads sheet.now card × Accepted sheet.now }
    requires lines_are { LinesAre sheet.now lines.now }
    requires rows_len { (length rows.now ≡ 1024) × (lines_in lines.now ≤ length bounds.now) }
    requires by_index { (sense : model.Sense) × (q : ℕ) × RowsFound sense sheet.now (suc q) rows.now forms.old × BoundsAt sense sheet.now q bounds.now }
    ensures classes { (sense : model.Sense) (q : ℕ) → BaseAt sense sheet.now (suc q) rows.now → Classes sense sheet.now q result × BoundsAt sense sheet.now q result }
    ensures form_table { FormTable forms.new }
{
    all_forms(sheet, card, lines, rows, forms);
    let effects = Effects::new(lines, rows, forms);
    effects.classes(bounds)
}

// The first stage of a sense that is settled, from stage 1 on, and what it gives. Before it all rows are 0, and so are all classes.
fn settle_lines(
    sense: Sense,
    sheet: &[u8],
    card: Card,
    norms: [u32; 32],
    lines: &[u8],
    forms: &mut [u64],
    settled: &mut Settled,
)
    requires accepts { Accepts sheet.now card norms }
    requires lines_are { LinesAre sheet.now lines.now }
    requires form_table { FormTable forms.old }
    ensures { IsSettled (sense_of sense) sheet.now settled.new }
{
    settled.base.rows = [0u32; 1024];
    settled.base.since = [0usize; 32];
    settled.stage = 0;
    let mut classes = [0u8; 256];
    // A loop: it ends at the stage that is settled, which no number says beforehand.
    loop {
        let rows = &settled.base.rows;
        let next = stage_rows(sense, sheet, card, norms, lines, rows, &classes, forms);
        classes = line_classes(sheet, card, lines, &next, &classes, forms);
        settled.stage += 1;
        keep_stage(
            card.kinds,
            &settled.base.rows,
            &next,
            settled.stage,
            &mut settled.base.since,
            &mut settled.before,
        );
        settled.base.rows = next;
        if rows_expand(lines, &classes, &settled.base.rows, &norms, card.kinds) {
            return;
        }
    }
}

// Of a sense: "The settled stage is the least s from 1 up in which every related pair satisfies expansion", with its base and what is kept of the stages.
pub fn settle(sense: Sense, sheet: &[u8], card: Card, norms: [u32; 32], settled: &mut Settled)
    requires { Accepts sheet.now card norms }
    ensures { IsSettled (sense_of sense) sheet.now settled.new }
{
    let bytes = 3 * card.lines;
    let lines = line_table(sheet, card, norms);
    let mut forms = [0u64; 8192];
    settle_lines(
        sense,
        sheet,
        card,
        norms,
        &lines[..bytes],
        &mut forms,
        settled,
    );
}
