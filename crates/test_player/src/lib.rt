// A second, slow player of the round game. It shares no function with the code that it is held against: it reads the sheet by a reader of its
// own, and plays every challenge against every reply, in the order and with the count of pairs of the model's `examine`. It plays the finer game too, in which the totals of each pair are looked at first.
#![tactic(auto)]

pub mod game; // the round game
pub mod totals; // what the finer game looks at

pub use game::{Play, Tried, parting};
