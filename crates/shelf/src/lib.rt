// Shelf numbers by a constant table: the fields of few tokens, over a list of kinds, numbered and found by number. It reads no sheet.
#![tactic(auto)]

pub mod entry; // an entry of the table
pub mod field; // number to field
pub mod number; // field to number
pub mod table; // the table, which the program `entries` prints
