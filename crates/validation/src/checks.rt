// The check of a sheet's bytes: "Checks run from top to bottom; the first that applies is given with its place."
ghost use Rattle.std.specs.Prelude.{◌≡◌};
ghost use Rattle.model.specs.Refusal.{outside as outsideOf, clear, first_of, header_checks, line_checks};
ghost use Rattle.sheet.specs.Reader.{header_of, number_checks, layout_checks};
ghost use Rattle.refusals.specs.Refusals.{answer_of, finding_of};
ghost use Rattle.validation.specs.Outcome.{outcome, checked_of};

use refusals::Refusal;
use sheet::Card;
use sheet::bytes::{byte_at, u32_at};

// "out of range": whether a number is below the low end or above the high one.
pub fn outside(low: usize, high: usize, number: usize) -> bool
    ensures { result ≡ outsideOf low high number }
{
    number < low || high < number
}

// 1 to 5: the length, and the header's four numbers.
fn check_numbers(sheet: &[u8]) -> Result<Card, Refusal>
    ensures { answer_of (λ c. c) result ≡ outcome (header_of sheet.now) (first_of (number_checks sheet.now)) }
{
    if sheet.len() < Card::HEADER {
        return Err(Refusal::ShortSheet);
    }
    let card = Card::of_header(sheet);
    let kinds = card.kinds;
    let codes = card.codes;
    let lines = card.lines;
    let fields = card.fields;
    if outside(1, Card::KINDS, kinds) {
        return Err(Refusal::KindCount);
    }
    if outside(1, Card::CODES, codes) {
        return Err(Refusal::CodeCount);
    }
    if Card::LINES < lines {
        return Err(Refusal::LineCount);
    }
    if Card::FIELDS < fields {
        return Err(Refusal::FieldCount);
    }
    Ok(card)
}

// 6, at places 0 to 3: the offset of the lines, that of the fields, the total, and the bytes given.
fn check_layout(sheet: &[u8], card: Card) -> Result<(), Refusal>
    requires card_value { card ≡ header_of sheet.now }
    requires sheet_value { first_of (number_checks sheet.now) ≡ clear }
    ensures { finding_of result ≡ first_of (layout_checks sheet.now) }
{
    let fields = card.line_start(card.lines);
    let total = card.field_start(card.fields);
    if u32_at(sheet, 8) != Card::HEADER {
        return Err(Refusal::LinesOffset);
    }
    if u32_at(sheet, 12) != fields {
        return Err(Refusal::FieldsOffset);
    }
    if u32_at(sheet, 16) != total {
        return Err(Refusal::Total);
    }
    if sheet.len() != total {
        return Err(Refusal::ByteCount);
    }
    Ok(())
}

// 7 and 8, line by line.
fn check_lines(sheet: &[u8], card: Card) -> Result<(), Refusal>
    requires card_value { card ≡ header_of sheet.now }
    requires sheet_value { first_of (header_checks sheet.now) ≡ clear }
    ensures { finding_of result ≡ first_of (line_checks sheet.now) }
{
    let kinds = card.kinds;
    let codes = card.codes;
    for line in 0..card.lines {
        let start = card.line_start(line);
        if kinds <= byte_at(sheet, start) {
            return Err(Refusal::LineKind { line });
        }
        if codes <= byte_at(sheet, start + 1) {
            return Err(Refusal::LineCode { line });
        }
    }
    Ok(())
}

// 1 to 8, of any bytes of any length: the card, or the refusal.
pub fn check_sheet(sheet: &[u8]) -> Result<Card, Refusal>
    ensures { answer_of (λ c. c) result ≡ checked_of sheet.now }
{
    let card = check_numbers(sheet)?;
    check_layout(sheet, card)?;
    check_lines(sheet, card)?;
    Ok(card)
}
