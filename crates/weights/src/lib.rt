// Sums of counts by the values or the norms of their kinds, over plain arrays.
#![tactic(auto)]

pub mod value; // the counts of a line against the values of the kinds: sums, one read's value, the lesser of two values
pub mod fields; // the norm of a field, and its tokens
