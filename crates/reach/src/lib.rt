// The kinds of a sheet that are reached.
#![tactic(auto)]

pub mod kinds; // marks for the kinds that fields hold, and for those that lines leave from there on
pub mod marks; // marks added for counts, and the next marked kind

pub use kinds::reached_kinds;
