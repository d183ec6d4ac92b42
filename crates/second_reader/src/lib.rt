// A second reader of a sheet, for the second player. It shares no function with the code that the player is held against.
#![tactic(auto)]

pub mod reader; // the numbers, lines and fields of a sheet, from its bytes
pub mod moves; // what a line does to a field

pub use moves::{field_after, may_reply, may_use};
pub use reader::{
    codes, field, field_count, fields, kinds, line_code, line_kind, line_left, line_start, lines,
};
