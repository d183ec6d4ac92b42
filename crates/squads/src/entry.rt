// Squads: how often the squad goes into the whole, and the prime form of what is left.
ghost use Rattle.std.specs.Prelude.{◌≡◌, ◌≤◌, ◌<◌, eqb, length};
ghost use Rattle.model.specs.Field.{tokens};
ghost use Rattle.model.specs.Sense.{plain};
ghost use Rattle.model.specs.Base.{settled_stage};
ghost use Rattle.model.specs.Sheet.{kind_count, card_of, field_of};
ghost use Rattle.model.specs.Refusal.{Accepted};
ghost use Rattle.model.specs.Answer.{written, squad_count, remainder_form, squads_of};
ghost use Rattle.sheet.specs.Reader.{Reads};
ghost use Rattle.refusals.specs.Refusals.{answer_of};
ghost use Rattle.rows.specs.Stage.{BaseAt};

use acceptance::accept::accept;
use filer::form::prime_counts;
use filer::settlement::{Settlement, settle_accepted};
use quotients::divide::divide;
use refusals::Refusal;
use sheet::Card;
use tables::sense::Sense;
use tables::table::Base;
use validation::check_fields;
use weights::fields::field_tokens;

// Squads, of any bytes, any two field numbers and a buffer of any length; a refusal leaves the buffer as it was. The sheet is settled once.
pub fn squads(
    sheet: &[u8],
    whole: usize,
    squad: usize,
    remainder: &mut [u64],
) -> Result<u64, Refusal>
    ensures result_value { answer_of (λ q. q) result ≡ (squads_of sheet.now whole squad remainder.old).answer }
    ensures remainder_after { remainder.new ≡ (squads_of sheet.now whole squad remainder.old).lent }
{
    let acceptance = accept(sheet)?;
    let mut settlement = Settlement::of(acceptance);
    settle_accepted(Sense::Plain, sheet, &mut settlement);
    let card = settlement.card;
    check_fields(Ok(card), whole, squad)?;
    squads_accepted(
        sheet,
        card,
        &settlement.settled.base,
        whole,
        squad,
        remainder,
    )
}

// Squads, of two fields of a sheet that was accepted, by its final base.
fn squads_accepted(
    sheet: &[u8],
    card: Card,
    base: &Base,
    whole: usize,
    squad: usize,
    remainder: &mut [u64],
) -> Result<u64, Refusal>
    requires reads { Reads sheet.now card × Accepted sheet.now }
    requires base_at { BaseAt plain sheet.now (settled_stage (card_of sheet.now)) base.now.rows }
    requires whole_lt_fields { (whole < card.fields) × (squad < card.fields) }
    ensures result_value { answer_of (λ q. q) result ≡ (squads_of sheet.now whole squad remainder.old).answer }
    ensures remainder_after { remainder.new ≡ (squads_of sheet.now whole squad remainder.old).lent }
{
    if is_empty(sheet, card, squad) {
        return Err(Refusal::EmptySquad);
    }
    if remainder.len() < card.kinds {
        return Err(Refusal::ShortBuffer);
    }
    let count = divide_forms(sheet, card, base, whole, squad, remainder);
    Ok(count)
}

// "a squad that is empty": the field has no token.
fn is_empty(sheet: &[u8], card: Card, field: usize) -> bool
    requires reads { Reads sheet.now card }
    requires field_lt_fields { field < card.fields }
    ensures { result ≡ eqb (tokens (kind_count sheet.now) (field_of sheet.now field)) 0 }
{
    field_tokens(card.kinds, card.field(sheet, field)) == 0
}

// How often the squad's prime form goes into the whole's; what is left goes to the front of the buffer.
fn divide_forms(
    sheet: &[u8],
    card: Card,
    base: &Base,
    whole: usize,
    squad: usize,
    remainder: &mut [u64],
) -> u64
    requires reads { Reads sheet.now card × Accepted sheet.now }
    requires base_at { BaseAt plain sheet.now (settled_stage (card_of sheet.now)) base.now.rows }
    requires whole_lt_fields { (whole < card.fields) × (squad < card.fields) }
    requires nonzero { 0 < tokens (kind_count sheet.now) (field_of sheet.now squad) }
    requires sheet_in_bounds { kind_count sheet.now ≤ length remainder.old }
    ensures value { result ≡ squad_count sheet.now whole squad }
    ensures remainder_after { remainder.new ≡ written (remainder_form sheet.now whole squad) remainder.old }
{
    let n = card.kinds;
    let of_whole = prime_counts(sheet, card, base, whole);
    let of_squad = prime_counts(sheet, card, base, squad);
    divide(&of_whole[..n], &of_squad[..n], remainder)
}
