// Shelf number: "field to number".
ghost use Rattle.std.specs.Prelude.{◌≡◌};
ghost use Rattle.model.specs.Answer.{shelf_number_of};
ghost use Rattle.norms.specs.Norms.{Accepts};
ghost use Rattle.refusals.specs.Refusals.{answer_of};
ghost use Rattle.numbering.specs.Answers.{shelved};

use crate::answers::ShelfNumber;
use crate::kinds::listed_kinds;
use acceptance::accept::accept;
use refusals::Refusal;
use sheet::Card;
use shelf::number::number_of;
use weights::fields::field_tokens;

// "fields of up to 16 tokens"
pub const TOKENS: usize = 16;

// Shelf number, of any bytes and any field number.
pub fn shelf_number(sheet: &[u8], field: usize) -> Result<ShelfNumber, Refusal>
    ensures { answer_of shelved result ≡ shelf_number_of sheet.now field }
{
    let acceptance = accept(sheet)?;
    number_accepted(sheet, acceptance.card, &acceptance.norms, field)
}

// Shelf number, of a sheet that was accepted, by its norms.
fn number_accepted(
    sheet: &[u8],
    card: Card,
    norms: &[u32; 32],
    field: usize,
) -> Result<ShelfNumber, Refusal>
    requires { Accepts sheet.now card norms.now }
    ensures { answer_of shelved result ≡ shelf_number_of sheet.now field }
{
    let n = card.kinds;
    let fields = card.fields;
    if fields <= field {
        return Err(Refusal::FirstNumber);
    }
    let counts = card.field(sheet, field);
    let size = field_tokens(n, counts) as usize;
    if TOKENS < size {
        return Err(Refusal::ManyTokens);
    }
    let mut store = [0usize; 32];
    let kinds = listed_kinds(n, norms, &mut store);
    let number = number_of(kinds, &counts, size);
    Ok(ShelfNumber { size, number })
}
