// How often counts go into counts, and what is left: over plain arrays, with a count for each kind. It reads no sheet.
#![tactic(auto)]

mod times; // how often
mod remainder; // what is left
pub mod divide; // both
