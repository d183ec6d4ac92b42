// Refusals in words: the sentence of a number and place.

#![tactic(auto)]

// The table of sentences.
mod table;

// The sentence of a refusal, written.
mod sentence;

pub use sentence::put_sentence;
