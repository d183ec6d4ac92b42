// The check of a whole sheet: refusals 1 to 8, then 9 and 10 from the norms of its reached kinds.
ghost use Rattle.std.specs.Prelude.{false, ◌≡◌, ◌≤◌, get_or};
ghost use Rattle.model.specs.Field.{at};
ghost use Rattle.model.specs.Limits.{most_kinds};
ghost use Rattle.model.specs.Refusal.{first_of};
ghost use Rattle.refusals.specs.Refusals.{answer_of, finding_of};
ghost use Rattle.acceptance.specs.Acceptance.{norm_checks_by, acceptance_of};

use norms::kinds::kind_norms;
use reach::reached_kinds;
use refusals::Refusal;
use sheet::Card;
use validation::check_sheet;

// What a sheet gives that passes the checks 1 to 10: the card and the norms of its reached kinds.
#[derive(Clone, Copy)]
pub struct Acceptance {
    pub card: Card,
    pub norms: [u32; 32],
}

// "A sheet is accepted when none of 1 to 10 applies to it", of any bytes of any length.
pub fn accept(sheet: &[u8]) -> Result<Acceptance, Refusal>
    ensures { answer_of (λ a. a) result ≡ acceptance_of sheet.now }
{
    let card = check_sheet(sheet)?;
    let reached = reached_kinds(sheet, card);
    let norms = kind_norms(sheet, card, &reached);
    check_norms(card.kinds, &reached, &norms)?;
    Ok(Acceptance { card, norms })
}

// 9 at the lowest reached kind that has no norm, then 10 at the lowest with one over the limit.
fn check_norms(kinds: usize, reached: &[bool; 32], norms: &[u32; 32]) -> Result<(), Refusal>
    requires { kinds ≤ most_kinds }
    ensures { finding_of result ≡ first_of (norm_checks_by (λ k. get_or reached.now k false) (at norms.now) kinds) }
{
    if let Some(kind) = (0..kinds).find(|kind| reached[*kind] && norms[*kind] == 0) {
        return Err(Refusal::NoNorm { kind });
    }
    if let Some(kind) = (0..kinds).find(|kind| Card::NORM < norms[*kind]) {
        return Err(Refusal::LargeNorm { kind });
    }
    Ok(())
}
