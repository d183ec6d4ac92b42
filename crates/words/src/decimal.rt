// Numbers in decimal.
ghost use Rattle.std.specs.Prelude.{◌≡◌, ◌+◌, ◌*◌, ◌-◌, ◌≤◌, ◌<◌, MatchOption};
ghost use Rattle.words.specs.Word.{number_of, digit_of};

// The digit that a byte is.
#[tactic(auto, using(crate::proofs::Decimals::digits))]
fn digit(byte: u8) -> Option<u64>
    ensures { MatchOption result (digit_of byte ≡ 10) (λ d. (d ≡ digit_of byte) × (d < 10)) }
{
    match byte {
        b'0'..=b'9' => Some(u64::from(byte - b'0')),
        _ => None,
    }
}

// The number that a word of decimal digits says, where it is at most `most`.
pub fn number(word: &[u8], most: u64) -> Option<u64>
    requires { 9 ≤ most }
    ensures { result ≡ number_of most word.now }
{
    if word.is_empty() {
        return None;
    }
    let mut value = 0;
    for byte in word {
        let next = digit(*byte)?;
        if (most - next) / 10 < value {
            return None;
        }
        value = 10 * value + next;
    }
    Some(value)
}
