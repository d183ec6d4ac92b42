// The one reader of sheets: the bytes, the header, the lines and the fields.
#![tactic(auto)]

pub mod bytes; // numbers of one, two and four bytes
pub mod reader; // the card by value, its lines and its fields
pub mod sums; // sums of counts

pub use reader::Card;
pub use sums::add_counts;
