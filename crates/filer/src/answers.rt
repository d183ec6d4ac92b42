// What Compare answers. specs/Answers.antt gives the cases their numbers and values.
ghost use Rattle.std.specs.Prelude.{◌≡◌};
ghost use Rattle.model.specs.Answer.{refused};
ghost use Rattle.refusals.specs.Refusals.{number_of, place_of};
ghost use Rattle.filer.specs.Answers.{verdict_of};

use refusals::Refusal;

// Compare: "a verdict is same, or different with its stage and its rounds". A refusal is a case, and not the error of a Result: the interface fixes the form, three cases with the refusal's two numbers.
#[derive(Clone, Copy, Debug, PartialEq, Eq)]
pub enum Verdict {
    Same,
    Different { stage: usize, rounds: u64 },
    Refused { number: usize, place: usize },
}

impl From<Refusal> for Verdict {
    ghost from_gives = { λ refusal verdict. verdict_of verdict ≡ refused (number_of refusal) (place_of refusal) };

    fn from(refusal: Refusal) -> Verdict {
        Verdict::Refused {
            number: refusal.number(),
            place: refusal.place(),
        }
    }
}
