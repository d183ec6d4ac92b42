// The line that a walk answers, as text.
#![tactic(auto)]

pub mod line;

pub use line::put_walk;
