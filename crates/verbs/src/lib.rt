// Calls in words of the filer, one function a verb: the numbers that it takes, and the text of what it answers.
#![tactic(auto)]

pub mod compare; // compare I J, finer I J
pub mod form; // form I, finer-form I
pub mod settle; // settle, row K
