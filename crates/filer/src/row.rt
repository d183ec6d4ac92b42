// Row: the row of a kind is handed out as a part of the caller's own table.
ghost use Rattle.std.specs.Prelude.{◌≡◌};
ghost use Rattle.model.specs.Answer.{row_of, row_check_of};
ghost use Rattle.refusals.specs.Refusals.{finding_of};

use refusals::Refusal;
use sheet::Card;
use validation::checks::outside;

// "Row checks 2, 11, 12 only", of a lent table, n and a kind.
pub fn row_check(table: &[u32], kinds: usize, kind: usize) -> Result<(), Refusal>
    ensures { finding_of result ≡ row_check_of kinds kind table.now }
{
    if outside(1, Card::KINDS, kinds) {
        return Err(Refusal::KindCount);
    }
    if kinds <= kind {
        return Err(Refusal::FirstNumber);
    }
    if table.len() < kinds * kinds {
        return Err(Refusal::ShortBuffer);
    }
    Ok(())
}

// "The row of a kind is handed out as that part of the lent table; a refusal hands out an empty part."
pub fn row(table: &[u32], kinds: usize, kind: usize) -> &[u32]
    ensures { result.now ≡ row_of kinds kind table.now }
{
    match row_check(table, kinds, kind) {
        Ok(()) => {
            let start = kind * kinds;
            let end = start + kinds;
            &table[start..end]
        }
        Err(_) => &table[0..0],
    }
}
