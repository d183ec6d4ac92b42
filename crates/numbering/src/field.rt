// Shelf field: "number to field".
ghost use Rattle.std.specs.Prelude.{reverse, ◌≡◌, ◌≤◌, ◌<◌, length};
ghost use Rattle.model.specs.Finite.{list_from};
ghost use Rattle.model.specs.Limits.{most_kinds, most_tokens};
ghost use Rattle.model.specs.Shelf.{entry, field_in};
ghost use Rattle.model.specs.Answer.{written, shelf_field_of};
ghost use Rattle.shelf.specs.Kinds.{InOrder};
ghost use Rattle.refusals.specs.Refusals.{answer_of};

use crate::kinds::listed_kinds;
use crate::number::TOKENS;
use acceptance::accept::accept;
use copies::write;
use refusals::Refusal;
use shelf::entry::entry_of;
use shelf::field::field_of;

// Shelf field, of any bytes, any size, any number and a buffer of any length; a refusal leaves the buffer as it was.
pub fn shelf_field(
    sheet: &[u8],
    size: usize,
    number: u64,
    buffer: &mut [u16],
) -> Result<(), Refusal>
    ensures result_value { answer_of (λ x. tt) result ≡ (shelf_field_of sheet.now size number buffer.old).answer }
    ensures buffer_after { buffer.new ≡ (shelf_field_of sheet.now size number buffer.old).lent }
{
    let acceptance = accept(sheet)?;
    let n = acceptance.card.kinds;
    let mut store = [0usize; 32];
    let kinds = listed_kinds(n, &acceptance.norms, &mut store);
    let count = kinds.len();
    if TOKENS < size {
        return Err(Refusal::ManyTokens);
    }
    if entry_of(count, size) <= number {
        return Err(Refusal::NumberAtSize);
    }
    if buffer.len() < n {
        return Err(Refusal::ShortBuffer);
    }
    write_field(kinds, n, size, number, buffer);
    Ok(())
}

// The field of a number among those of a size, over kinds in number order, to the front of the buffer as so many counts.
fn write_field(kinds: &[usize], counts: usize, size: usize, number: u64, buffer: &mut [u16])
    requires in_order { InOrder kinds.now }
    requires counts_le_most_kinds { (counts ≤ most_kinds) × (size ≤ most_tokens) }
    requires number_bound { number < entry (length kinds.now) size }
    requires counts_in_bounds { counts ≤ length buffer.old }
    ensures { buffer.new ≡ written (list_from (field_in (reverse kinds.now) size number) 0 counts) buffer.old }
{
    let field = field_of(kinds, size, number);
    write(&field[..counts], buffer);
}
