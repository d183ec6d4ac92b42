// Prime form and finer Prime form: "n counts of 64 bits to a lent buffer".
ghost use Rattle.std.specs.Prelude.{◌≡◌, ◌<◌, take};
ghost use Rattle.model.specs.Sense as model;
ghost use Rattle.model.specs.Base.{settled_stage_in};
ghost use Rattle.model.specs.Sheet.{kind_count, card_of};
ghost use Rattle.model.specs.Refusal.{Accepted};
ghost use Rattle.model.specs.Answer.{prime_form_in, forming_in, form_of, finer_form_of};
ghost use Rattle.sheet.specs.Reader.{Reads};
ghost use Rattle.tables.specs.Senses.{sense_of};
ghost use Rattle.refusals.specs.Refusals.{answer_of};
ghost use Rattle.rows.specs.Stage.{BaseAt};
ghost use Rattle.filer.specs.Settlement.{IsSettlement, SettlementIs};

use crate::settlement::{Settlement, settle_accepted};
use acceptance::accept::accept;
use copies::write;
use refusals::Refusal;
use sheet::Card;
use stages::parting::field_form;
use tables::sense::Sense;
use tables::table::Base;

// Prime form, of any bytes, any field number and a buffer of any length; a refusal leaves the buffer as it was.
pub fn prime_form(sheet: &[u8], field: usize, buffer: &mut [u64]) -> Result<(), Refusal>
    ensures result_value { answer_of (λ x. tt) result ≡ (form_of sheet.now field buffer.old).answer }
    ensures buffer_after { buffer.new ≡ (form_of sheet.now field buffer.old).lent }
{
    form_in(Sense::Plain, sheet, field, buffer)
}

// Finer Prime form, of any bytes, any field number and a buffer of any length: the prime form of the finer sense.
pub fn finer_prime_form(sheet: &[u8], field: usize, buffer: &mut [u64]) -> Result<(), Refusal>
    ensures result_value { answer_of (λ x. tt) result ≡ (finer_form_of sheet.now field buffer.old).answer }
    ensures buffer_after { buffer.new ≡ (finer_form_of sheet.now field buffer.old).lent }
{
    form_in(Sense::Finer, sheet, field, buffer)
}

// Prime form or finer Prime form, by the sense.
pub fn form_in(sense: Sense, sheet: &[u8], field: usize, buffer: &mut [u64]) -> Result<(), Refusal>
    ensures result_value { answer_of (λ x. tt) result ≡ (forming_in (sense_of sense) sheet.now field buffer.old).answer }
    ensures buffer_after { buffer.new ≡ (forming_in (sense_of sense) sheet.now field buffer.old).lent }
{
    let acceptance = accept(sheet)?;
    let mut settlement = Settlement::of(acceptance);
    settle_accepted(sense, sheet, &mut settlement);
    form_accepted(sheet, &settlement, field, buffer)
}

// The prime form of the sense in which a sheet was settled, of any field number and a buffer of any length; a sheet that was refused has none.
pub fn form_settled(
    sheet: &[u8],
    settled: &Result<Settlement, Refusal>,
    field: usize,
    buffer: &mut [u64],
) -> Result<(), Refusal>
    requires { (sense : model.Sense) × SettlementIs sense sheet.now settled.now }
    ensures { (sense : model.Sense) → SettlementIs sense sheet.now settled.now → (answer_of (λ x. tt) result ≡ (forming_in sense sheet.now field buffer.old).answer) × (buffer.new ≡ (forming_in sense sheet.now field buffer.old).lent) }
{
    match settled {
        Ok(settlement) => form_accepted(sheet, settlement, field, buffer),
        Err(refusal) => Err(*refusal),
    }
}

// The prime form of the sense in which an accepted sheet was settled, of any field number and a buffer of any length.
pub fn form_accepted(
    sheet: &[u8],
    settlement: &Settlement,
    field: usize,
    buffer: &mut [u64],
) -> Result<(), Refusal>
    requires { (sense : model.Sense) × IsSettlement sense sheet.now settlement.now }
    ensures { (sense : model.Sense) → IsSettlement sense sheet.now settlement.now → (answer_of (λ x. tt) result ≡ (forming_in sense sheet.now field buffer.old).answer) × (buffer.new ≡ (forming_in sense sheet.now field buffer.old).lent) }
{
    let card = settlement.card;
    let fields = card.fields;
    let n = card.kinds;
    if fields <= field {
        return Err(Refusal::FirstNumber);
    }
    if buffer.len() < n {
        return Err(Refusal::ShortBuffer);
    }
    let form = prime_counts(sheet, card, &settlement.settled.base, field);
    write(&form[..n], buffer);
    Ok(())
}

// The prime form of a field, by the final base of a sense: the first n counts of the array.
pub fn prime_counts(sheet: &[u8], card: Card, base: &Base, field: usize) -> [u64; 32]
    requires reads { Reads sheet.now card × Accepted sheet.now }
    requires base_at { (sense : model.Sense) × BaseAt sense sheet.now (settled_stage_in sense (card_of sheet.now)) base.now.rows }
    requires field_lt_fields { field < card.fields }
    ensures { (sense : model.Sense) → BaseAt sense sheet.now (settled_stage_in sense (card_of sheet.now)) base.now.rows → take (kind_count sheet.now) result ≡ prime_form_in sense sheet.now field }
{
    field_form(sheet, card, &base.rows, field)
}
