// Words one after another.
ghost use Rattle.std.specs.Prelude.{◌≡◌, ◌==◌, length, position};
ghost use Rattle.words.specs.Words.{words_of, numbers_of, count_of, CountWithin};

use crate::decimal::number;

// The end of a text's first word: its first byte 0. Bytes that no 0 ends are no word.
pub fn word_end(text: &[u8]) -> Option<usize>
    ensures { result ≡ position (λ byte. byte == 0) text.now }
{
    text.iter().position(|byte| *byte == 0)
}

// The numbers that the words of a text say, to the front of a lent array: all of them, where each word is a number of 64 bits and the array has room.
pub fn numbers_in(text: &[u8], values: &mut [u64]) -> Option<usize>
    ensures values_after { count_of result values.new ≡ numbers_of (length values.old) (words_of text.now) }
    ensures count_within { CountWithin result (length values.old) }
{
    let mut rest = text;
    let mut count = 0;
    // A while: each turn takes a word of its own length off the rest.
    while let Some(end) = word_end(rest) {
        if values.len() <= count {
            return None;
        }
        let (word, others) = rest.split_at(end);
        values[count] = number(word, u64::MAX)?;
        count += 1;
        rest = &others[1..];
    }
    Some(count)
}
