// Calls in words of shelf numbers, one function a verb: the numbers that it takes, and the text of what it answers.
#![tactic(auto)]

pub mod field; // field SIZE NUMBER
pub mod number; // number I
