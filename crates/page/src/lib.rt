// The printed page of a sheet, into a lent buffer. One settle serves the whole page.

#![tactic(auto)]

// The lines of all kinds, of all fields and of all pairs.
mod fields;
mod kinds;
mod pairs;

// The page: the public entry.
mod sheet_page;

pub use sheet_page::{INPUT, PAGE, write_page};
