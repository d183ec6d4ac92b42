// Calls in words: a verb and its numbers, and the text that the call answers.

#![tactic(auto)]

// The table of verbs.
pub mod table;

// From the words to the text: the public entry.
pub mod query;

pub use query::{TEXT, answer};
