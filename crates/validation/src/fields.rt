// The check of two field numbers, which Compare, Walk and Squads have in common.
ghost use Rattle.std.specs.Prelude.{◌≡◌};
ghost use Rattle.refusals.specs.Refusals.{answer_of};
ghost use Rattle.validation.specs.Fields.{with_fields};

use refusals::Refusal;
use sheet::Card;

// 11 at place 0 or 1, of a sheet that passed the checks before; a sheet that did not stays refused as it was.
pub fn check_fields(
    checked: Result<Card, Refusal>,
    first: usize,
    second: usize,
) -> Result<Card, Refusal>
    ensures { answer_of (λ c. c) result ≡ with_fields first second (answer_of (λ c. c) checked) }
{
    let card = checked?;
    if card.fields <= first {
        return Err(Refusal::FirstNumber);
    }
    if card.fields <= second {
        return Err(Refusal::SecondNumber);
    }
    Ok(card)
}
