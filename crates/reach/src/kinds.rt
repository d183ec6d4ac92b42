// The kinds that are reached: "kinds that some field of the sheet holds, or that a line can leave starting from those". The lines of each kind that is found are followed once.
ghost use Rattle.std.specs.Prelude.{false, ◌≡◌, ℕ, length, get_or};
ghost use Rattle.model.specs.Card.{reached};
ghost use Rattle.model.specs.Limits.{most_kinds};
ghost use Rattle.model.specs.Sheet.{card_of};
ghost use Rattle.sheet.specs.Reader.{Reads};
ghost use Rattle.reach.specs.Marks.{Adds};
ghost use Rattle.reach.specs.Kinds.{HeldBy, LeftBy};

use crate::marks::{mark, next_kind};
use sheet::Card;

// Whether each kind that a card may have is reached; none past the card's kinds is.
pub fn reached_kinds(sheet: &[u8], card: Card) -> [bool; 32]
    requires { Reads sheet.now card }
    ensures { (k : ℕ) → get_or result k false ≡ reached (card_of sheet.now) k }
{
    let mut marks = [false; 32];
    mark_fields(sheet, card, &mut marks);
    let mut done = [false; 32];
    // A while: the kinds marked and not done are a work list, to which each turn may add.
    while let Some(kind) = next_kind(&marks, &done) {
        mark_left(sheet, card, kind, &mut marks);
        done[kind] = true;
    }
    marks
}

// Marks the kinds that some field of the sheet holds.
fn mark_fields(sheet: &[u8], card: Card, marks: &mut [bool])
    requires reads { Reads sheet.now card }
    requires marks_len { length marks.old ≡ most_kinds }
    ensures { Adds (HeldBy sheet.now) marks.old marks.new }
{
    for number in 0..card.fields {
        let field = card.field(sheet, number);
        mark(&field, marks);
    }
}

// Marks the kinds that some line of a kind leaves.
fn mark_left(sheet: &[u8], card: Card, kind: usize, marks: &mut [bool])
    requires reads { Reads sheet.now card }
    requires marks_len { length marks.old ≡ most_kinds }
    ensures { Adds (LeftBy sheet.now kind) marks.old marks.new }
{
    for line in 0..card.lines {
        if card.line_kind(sheet, line) == kind {
            mark(card.line_counts(sheet, line), marks);
        }
    }
}
