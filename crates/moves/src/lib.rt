// Moves: "A field with a token of kind X may use a line of X", over the lines of a sheet that was read.
#![tactic(auto)]

pub mod fire; // the use of a line
pub mod follow; // the table of the lines that follow
pub mod lines; // the lines that a field may use
