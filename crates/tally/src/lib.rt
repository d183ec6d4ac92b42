// Verdicts held against what the second player found.
#![tactic(auto)]

pub mod tally; // what each comes to, counted

pub use tally::{Called, Played, Tally, look_unlike};
