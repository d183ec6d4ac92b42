// The words of verdicts and refusals, over plain values.

#![tactic(auto)]

// A verdict that is same or different, a refusal, the start of a pair's line.
mod line;

pub use line::{put_different, put_refused, put_same, put_start};
