// The sheet of a card's reached part: the same kinds, codes and fields, and the lines of the reached kinds alone.
#![tactic(auto)]

pub mod bytes; // bytes copied, and numbers of two bytes written
pub mod part; // the part's lines, fields and header

pub use part::write_part;
