// The reached part of a small sheet, for the second player: the kinds that some field holds, or that a line can leave starting from those. It shares no
// function with the code that the player is held against. What it writes is held by the tests alone: the verdicts of the filer on the sheet, and what is
// played on its reached part.
#![tactic(auto)]

pub mod marks; // which kinds are reached
pub mod part; // the sheet with the lines of these kinds alone

pub use marks::part_used;
pub use part::reached_part;
