// Compare and finer Compare: "a verdict is same, or different with its stage and its rounds".
ghost use Rattle.std.specs.Prelude.{◌≡◌, ◌+◌, ◌<◌, ◌^◌};
ghost use Rattle.model.specs.Norm.{kind_norm};
ghost use Rattle.model.specs.Base.{rounds_for, rounds_at};
ghost use Rattle.model.specs.Sheet.{card_of, field_of};
ghost use Rattle.model.specs.Answer.{compare_in, compare_of, finer_compare_of};
ghost use Rattle.norms.specs.Norms.{Accepts};
ghost use Rattle.tables.specs.Senses.{sense_of};
ghost use Rattle.filer.specs.Answers.{verdict_of};
ghost use Rattle.filer.specs.Settlement.{IsSettlement, SettlementIs};

use crate::answers::Verdict;
use crate::settlement::{Settlement, settle_accepted};
use acceptance::accept::accept;
use norms::lines::gain;
use refusals::Refusal;
use sheet::Card;
use stages::parting::parted;
use tables::sense::Sense;
use validation::check_fields;
use weights::fields::field_norm;

// Compare, of any bytes and any two field numbers.
pub fn compare(sheet: &[u8], first: usize, second: usize) -> Verdict
    ensures { verdict_of result ≡ compare_of sheet.now first second }
{
    compare_in(Sense::Plain, sheet, first, second)
}

// Finer Compare, of any bytes and any two field numbers: "bisimilar by a relation whose every pair also has equal token totals".
pub fn finer_compare(sheet: &[u8], first: usize, second: usize) -> Verdict
    ensures { verdict_of result ≡ finer_compare_of sheet.now first second }
{
    compare_in(Sense::Finer, sheet, first, second)
}

// Compare or finer Compare, by the sense.
pub fn compare_in(sense: Sense, sheet: &[u8], first: usize, second: usize) -> Verdict
    ensures { verdict_of result ≡ compare_in (sense_of sense) sheet.now first second }
{
    match accept(sheet) {
        Ok(acceptance) => {
            let mut settlement = Settlement::of(acceptance);
            settle_accepted(sense, sheet, &mut settlement);
            compare_accepted(sense, sheet, &settlement, first, second)
        }
        Err(refusal) => Verdict::from(refusal),
    }
}

// The verdict of a sense, of a sheet that was checked and settled in it, and any two field numbers.
pub fn compare_settled(
    sense: Sense,
    sheet: &[u8],
    settled: &Result<Settlement, Refusal>,
    first: usize,
    second: usize,
) -> Verdict
    requires { SettlementIs (sense_of sense) sheet.now settled.now }
    ensures { verdict_of result ≡ compare_in (sense_of sense) sheet.now first second }
{
    match settled {
        Ok(settlement) => compare_accepted(sense, sheet, settlement, first, second),
        Err(refusal) => Verdict::from(*refusal),
    }
}

// The verdict of a sense, of an accepted sheet that was settled in it, and any two field numbers.
pub fn compare_accepted(
    sense: Sense,
    sheet: &[u8],
    settlement: &Settlement,
    first: usize,
    second: usize,
) -> Verdict
    requires { IsSettlement (sense_of sense) sheet.now settlement.now }
    ensures { verdict_of result ≡ compare_in (sense_of sense) sheet.now first second }
{
    let card = settlement.card;
    if let Err(refusal) = check_fields(Ok(card), first, second) {
        return Verdict::from(refusal);
    }
    let norms = settlement.norms;
    let settled = &settlement.settled;
    let stage = parted(sense, sheet, card, norms, settled, first, second);
    if settled.stage < stage {
        return Verdict::Same;
    }
    let rounds = rounds_at(sheet, card, norms, stage, first, second);
    Verdict::Different { stage, rounds }
}

// "rounds is demand 3's number", for two fields that this stage parts.
fn rounds_at(
    sheet: &[u8],
    card: Card,
    norms: [u32; 32],
    stage: usize,
    first: usize,
    second: usize,
) -> u64
    requires accepts { Accepts sheet.now card norms }
    requires first_lt_fields { (first < card.fields) × (second < card.fields) }
    requires second_bound { rounds_at (card_of sheet.now) (kind_norm (card_of sheet.now)) stage (field_of sheet.now first) (field_of sheet.now second) < 2 ^ 64 }
    ensures { result ≡ rounds_at (card_of sheet.now) (kind_norm (card_of sheet.now)) stage (field_of sheet.now first) (field_of sheet.now second) }
{
    let kinds = card.kinds;
    let one = field_norm(kinds, norms, card.field(sheet, first));
    let other = field_norm(kinds, norms, card.field(sheet, second));
    let most = gain(sheet, card, &norms);
    if one < other {
        return rounds_for(one, most, stage);
    }
    rounds_for(other, most, stage)
}

// "N + 1 + (s - 1)(g + 1), or N + 1 if s is 0"
fn rounds_for(norm: u64, gain: u64, stage: usize) -> u64
    requires { (gain + 1 < 2 ^ 64) × (rounds_for norm gain stage < 2 ^ 64) }
    ensures { result ≡ rounds_for norm gain stage }
{
    if stage == 0 {
        return norm + 1;
    }
    norm + 1 + (stage - 1) as u64 * (gain + 1)
}
