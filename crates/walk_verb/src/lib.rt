// The call in words of the walker: the numbers that it takes, and the text of what it answers.
#![tactic(auto)]

pub mod walk; // walk I J LIMIT ALLOWANCE, and a desk
