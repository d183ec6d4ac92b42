// A sheet settled by its reached part: the lines of kinds that are out are not looked at.
ghost use Rattle.norms.specs.Norms.{Accepts};
ghost use Rattle.tables.specs.Senses.{sense_of};
ghost use Rattle.stages.specs.Settle.{IsSettled};

use crate::settle::{Settled, settle};
use part_sheet::write_part;
use sheet::Card;
use tables::sense::Sense;

// Of a sense: "the settled stage", "the final base" and what is kept of the stages, by the sheet of the reached part. The buffer has room for the longest sheet.
pub fn settle_reached(
    sense: Sense,
    sheet: &[u8],
    card: Card,
    norms: [u32; 32],
    settled: &mut Settled,
)
    requires { Accepts sheet.now card norms }
    ensures { IsSettled (sense_of sense) sheet.now settled.new }
{
    let mut bytes = [0u8; 12_820];
    let part = write_part(sheet, card, &norms, &mut bytes);
    let size = part.field_start(part.fields);
    settle(sense, &bytes[..size], part, norms, settled);
}
