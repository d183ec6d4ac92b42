// What a call in words comes to: how it ended, and how long its text is.
#![tactic(auto)]

pub mod reply;

pub use reply::{Outcome, Reply};
