// The values of each answer, in its layout.
ghost use Rattle.std.specs.Prelude.{[], ◌∷◌, ◌≡◌, ◌*◌, ◌<◌, ◌^◌};
ghost use Rattle.model.specs.Answer.{same, different};
ghost use Rattle.arrays.specs.Reply.{values_reply};
ghost use Rattle.arrays.specs.Values.{row_values, card_values, verdict_values, shelved_values};

use crate::reply::reply;
use sheet::Card;

// One value: a stage, a number of squads or the length of a page.
pub fn reply_value(value: u64, answer: &mut [u64]) -> u32
    ensures value { result ≡ (values_reply (value ∷ []) answer.old).code }
    ensures answer_after { answer.new ≡ (values_reply (value ∷ []) answer.old).values }
{
    let values = [value];
    reply(&values, answer)
}

// Where a row stands in its table.
pub fn reply_row(kinds: usize, kind: usize, answer: &mut [u64]) -> u32
    requires { kind * kinds < 2 ^ 64 }
    ensures value { result ≡ (values_reply (row_values kinds kind) answer.old).code }
    ensures answer_after { answer.new ≡ (values_reply (row_values kinds kind) answer.old).values }
{
    let values = [(kind * kinds) as u64, kinds as u64];
    reply(&values, answer)
}

// The numbers of a sheet's header.
pub fn reply_card(card: Card, answer: &mut [u64]) -> u32
    ensures value { result ≡ (values_reply (card_values card) answer.old).code }
    ensures answer_after { answer.new ≡ (values_reply (card_values card) answer.old).values }
{
    let values = [
        card.kinds as u64,
        card.codes as u64,
        card.lines as u64,
        card.fields as u64,
    ];
    reply(&values, answer)
}

// Two fields that are the same.
pub fn reply_same(answer: &mut [u64]) -> u32
    ensures value { result ≡ (values_reply (verdict_values same) answer.old).code }
    ensures answer_after { answer.new ≡ (values_reply (verdict_values same) answer.old).values }
{
    let values = [0u64, 0, 0];
    reply(&values, answer)
}

// Two fields that are different.
pub fn reply_different(stage: usize, rounds: u64, answer: &mut [u64]) -> u32
    ensures value { result ≡ (values_reply (verdict_values (different stage rounds)) answer.old).code }
    ensures answer_after { answer.new ≡ (values_reply (verdict_values (different stage rounds)) answer.old).values }
{
    let values = [1, stage as u64, rounds];
    reply(&values, answer)
}

// The shelf number of a field.
pub fn reply_shelved(size: usize, number: u64, answer: &mut [u64]) -> u32
    ensures value { result ≡ (values_reply (shelved_values (record { size = size; number = number })) answer.old).code }
    ensures answer_after { answer.new ≡ (values_reply (shelved_values (record { size = size; number = number })) answer.old).values }
{
    let values = [size as u64, number];
    reply(&values, answer)
}
