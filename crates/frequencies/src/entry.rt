// Frequencies: "how many of the fields of t tokens are the same as it and how many part from it at each stage from 0 to n".
ghost use Rattle.std.specs.Prelude.{◌≡◌, ℕ, ◌+◌, ◌≤◌, ◌<◌, length};
ghost use Rattle.model.specs.Finite.{list_from};
ghost use Rattle.model.specs.Field.{at};
ghost use Rattle.model.specs.Card.{reached_kinds, reached_count};
ghost use Rattle.model.specs.Limits.{most_kinds, most_tokens, most_listed};
ghost use Rattle.model.specs.Shelf.{entry};
ghost use Rattle.model.specs.Sheet.{kind_count, card_of};
ghost use Rattle.model.specs.Answer.{written, frequencies, frequencies_of};
ghost use Rattle.norms.specs.Norms.{Accepts};
ghost use Rattle.refusals.specs.Refusals.{answer_of};
ghost use Rattle.shelf.specs.Kinds.{InOrder};
ghost use Rattle.frequencies.specs.Related.{related_before, placed};

use crate::related::related_fields;
use acceptance::accept::accept;
use copies::write;
use numbering::kinds::listed_kinds;
use numbering::number::TOKENS;
use refusals::Refusal;
use sheet::Card;
use shelf::entry::entry_of;

// "an entry over 65,536"
const LISTED: u64 = 65_536;

// Frequencies, of any bytes, any field number, any size and a buffer of any length; a refusal leaves the buffer as it was. The sheet is settled once, and not at all where the call is refused.
pub fn frequencies(
    sheet: &[u8],
    field: usize,
    size: usize,
    buffer: &mut [u32],
) -> Result<(), Refusal>
    ensures result_value { answer_of (λ x. tt) result ≡ (frequencies_of sheet.now field size buffer.old).answer }
    ensures buffer_after { buffer.new ≡ (frequencies_of sheet.now field size buffer.old).lent }
{
    let acceptance = accept(sheet)?;
    frequencies_accepted(
        sheet,
        acceptance.card,
        acceptance.norms,
        field,
        size,
        buffer,
    )
}

// Frequencies, of a sheet that was accepted, by its norms.
fn frequencies_accepted(
    sheet: &[u8],
    card: Card,
    norms: [u32; 32],
    field: usize,
    size: usize,
    buffer: &mut [u32],
) -> Result<(), Refusal>
    requires { Accepts sheet.now card norms }
    ensures result_value { answer_of (λ x. tt) result ≡ (frequencies_of sheet.now field size buffer.old).answer }
    ensures buffer_after { buffer.new ≡ (frequencies_of sheet.now field size buffer.old).lent }
{
    let n = card.kinds;
    let fields = card.fields;
    if fields <= field {
        return Err(Refusal::FirstNumber);
    }
    if TOKENS < size {
        return Err(Refusal::ManyTokens);
    }
    let mut store = [0usize; 32];
    let kinds = listed_kinds(n, &norms, &mut store);
    let count = kinds.len();
    if LISTED < entry_of(count, size) {
        return Err(Refusal::ManyFields);
    }
    if buffer.len() < n + 2 {
        return Err(Refusal::ShortBuffer);
    }
    count_answers(sheet, card, norms, kinds, field, size, buffer);
    Ok(())
}

// Writes how many of the fields of the size, over the reached kinds, get each answer.
fn count_answers(
    sheet: &[u8],
    card: Card,
    norms: [u32; 32],
    kinds: &[usize],
    field: usize,
    size: usize,
    buffer: &mut [u32],
)
    requires accepts { Accepts sheet.now card norms }
    requires kinds_value { (kinds.now ≡ reached_kinds (card_of sheet.now)) × InOrder kinds.now }
    requires field_lt_fields { (field < card.fields) × (size ≤ most_tokens) }
    requires size_bound { entry (reached_count (card_of sheet.now)) size ≤ most_listed }
    requires sheet_in_bounds { kind_count sheet.now + 2 ≤ length buffer.old }
    ensures { buffer.new ≡ written (frequencies sheet.now field size) buffer.old }
{
    let related = related_fields(sheet, card, norms, kinds, field, size);
    let all = entry_of(kinds.len(), size);
    write_places(all, &related, card.kinds, buffer);
}

// Writes the count of each place, from how many fields there are and how many of them each stage relates to the given one: those that the last stage relates, then for each stage those that
// it parts, which it does not relate and the stage before does.
fn write_places(all: u64, related: &[u64; 33], kinds: usize, buffer: &mut [u32])
    requires all_le_most_listed { (all ≤ most_listed) × (kinds ≤ most_kinds) × (kinds + 2 ≤ length buffer.old) }
    requires by_index { (q : ℕ) → q ≤ kinds → at related.now q ≤ related_before all related.now q }
    ensures { buffer.new ≡ written (list_from (placed all related.now kinds) 0 (kinds + 2)) buffer.old }
{
    let mut counts = [0u32; 34];
    counts[0] = related[kinds] as u32;
    let mut before = all;
    for stage in 0..kinds + 1 {
        let here = related[stage];
        counts[stage + 1] = (before - here) as u32;
        before = here;
    }
    let places = kinds + 2;
    write(&counts[..places], buffer);
}
