// The check of a sheet's bytes: refusals 1 to 8; and that of two field numbers: 11.
#![tactic(auto)]

pub mod checks; // the checks, in the order of the table
pub mod fields; // two field numbers

pub use checks::check_sheet;
pub use fields::check_fields;
