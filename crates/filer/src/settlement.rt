// The core: a sheet is checked and settled once, and every call but Row goes by what that gives.
ghost use Rattle.std.specs.Prelude.{◌≡◌};
ghost use Rattle.norms.specs.Norms.{Accepts};
ghost use Rattle.tables.specs.Senses.{sense_of};
ghost use Rattle.filer.specs.Settlement.{IsSettlement, SettlementIs};

use acceptance::Acceptance;
use acceptance::accept::accept;
use refusals::Refusal;
use sheet::Card;
use stages::reached::settle_reached;
use stages::settle::Settled;
use tables::sense::Sense;

// An accepted sheet's card and the norms of its kinds, and what it settles to in a sense.
#[derive(Clone, Copy)]
pub struct Settlement {
    pub card: Card,
    pub norms: [u32; 32],
    pub settled: Settled,
}

impl Settlement {
    // An accepted sheet that is still to be settled: its card and norms, and a place for what it settles to.
    pub fn of(acceptance: Acceptance) -> Settlement
        ensures card { result.card ≡ acceptance.card }
        ensures norms { result.norms ≡ acceptance.norms }
    {
        let norms = acceptance.norms;
        Settlement {
            card: acceptance.card,
            norms,
            settled: Settled::new(),
        }
    }
}

// Settles an accepted sheet in a sense: each call settles once, and a page of a sheet too. What is settled is written where it stays, since a result would be copied, and take as much of the stack once more.
pub fn settle_accepted(sense: Sense, sheet: &[u8], settlement: &mut Settlement)
    requires { Accepts sheet.now settlement.old.card settlement.old.norms }
    ensures { IsSettlement (sense_of sense) sheet.now settlement.new }
{
    let card = settlement.card;
    let norms = settlement.norms;
    settle_reached(sense, sheet, card, norms, &mut settlement.settled);
}

// Any bytes: checked, and settled in a sense if they are accepted. The calls of the library check and settle one after the other: a result of what is settled would be copied once more.
pub fn settle_once(sense: Sense, sheet: &[u8]) -> Result<Settlement, Refusal>
    ensures { SettlementIs (sense_of sense) sheet.now result }
{
    let acceptance = accept(sheet)?;
    let mut settlement = Settlement::of(acceptance);
    settle_accepted(sense, sheet, &mut settlement);
    Ok(settlement)
}
