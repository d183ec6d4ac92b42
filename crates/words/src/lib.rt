// The words of a command line, each ended by a byte 0 as the system hands them over, and the numbers that they say.
#![tactic(auto)]

pub mod decimal; // a number in decimal, of at most a given size
pub mod list; // words one after another

pub use decimal::number;
pub use list::{numbers_in, word_end};
