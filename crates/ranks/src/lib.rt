// Lines in order, by code and then by effect: so two sets of lines are compared in one pass over both.

#![tactic(auto)]

// Which of two lines comes before the other.
pub mod precedes;
// Where a line belongs in a list that is in order.
pub mod place;
// A line put into a list.
pub mod insert;
// Lines put in order.
pub mod sort;
// Whether lines have matches in a list, of lists that are in order.
pub mod matched;
// The classes of the lines.
pub mod classes;
