// The call in words of frequencies: the numbers that it takes, and the text of what it answers.
#![tactic(auto)]

pub mod common; // common FIELD SIZE
