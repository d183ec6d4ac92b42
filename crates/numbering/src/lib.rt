// Shelf numbers of a sheet, over its reached kinds (requests 2 and 6 of document 02). Each call takes the sheet's bytes and checks them anew.

#![tactic(auto)]

// What Shelf number answers.
pub mod answers;

// The kinds that the listing runs over: those that have a norm.
pub mod kinds;

// Shelf number: field to number.
pub mod number;

// Shelf field: number to field.
pub mod field;

pub use answers::ShelfNumber;
