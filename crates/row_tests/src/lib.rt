// The tests of a row, over plain arrays: those by which a candidate is the row of a kind, and the one by which a stage is settled.

#![tactic(auto)]

// Norm-reducing expansion of a kind against its row.
pub mod norm_reducing;
// The total of a kind's row.
pub mod total;
// The tests of a kind's row.
pub mod passes;
// Whether the rows of a stage satisfy expansion.
pub mod expansion;
