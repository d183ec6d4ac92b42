// Random small sheets, for the second player of the round game.
#![tactic(auto)]

pub mod random; // numbers that a seed gives
pub mod writing; // bytes of a sheet, written to a buffer
pub mod cards; // random small cards, written as sheets

pub use cards::random_sheet;
