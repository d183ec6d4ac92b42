// Over plain arrays and a list of kinds: how many fields of a size have rows that add up to given counts. It reads no sheet.
#![tactic(auto)]

pub mod count; // how many of them add up to the counts
pub mod take; // a row taken away from counts
