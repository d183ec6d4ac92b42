// The check of a whole sheet: refusals 1 to 10.
#![tactic(auto)]

pub mod accept; // refusals 1 to 8, then 9 and 10 from the norms

pub use accept::Acceptance;
