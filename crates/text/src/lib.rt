// Byte strings, numbers and counts as text: each writer appends its text to what a lent buffer holds up to a position, and answers the position past it.

#![tactic(auto)]

// Byte strings and decimal numbers.
mod number;

pub use number::{put_byte, put_bytes, put_labelled, put_number, put_two_labelled};

// Counts of kinds.
mod counts;

pub use counts::{put_counts, put_counts_line, put_labelled_counts};
