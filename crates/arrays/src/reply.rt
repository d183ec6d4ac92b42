// The number returned, and the answer array.
ghost use Rattle.std.specs.Prelude.{◌≡◌, ◌<◌, ◌^◌};
ghost use Rattle.refusals.specs.Refusals.{number_of, place_of};
ghost use Rattle.arrays.specs.Reply.{code_of, values_reply};

use refusals::Refusal;

// The number that a refusal returns.
pub fn refusal_code(number: usize, place: usize) -> u32
    requires { code_of number place < 2 ^ 32 }
    ensures { result ≡ code_of number place }
{
    (number + 256 * place) as u32
}

// What a refused call returns.
pub fn refused(refusal: Refusal) -> u32
    requires { code_of (number_of refusal) (place_of refusal) < 2 ^ 32 }
    ensures { result ≡ code_of (number_of refusal) (place_of refusal) }
{
    refusal_code(refusal.number(), refusal.place())
}

// The values of an answer to the answer array; refused as 12 where it is too short for them.
pub fn reply(values: &[u64], answer: &mut [u64]) -> u32
    ensures value { result ≡ (values_reply values.now answer.old).code }
    ensures answer_after { answer.new ≡ (values_reply values.now answer.old).values }
{
    if answer.len() < values.len() {
        return 12;
    }
    copies::write(values, answer);
    0
}
