// The library for C and Rust (include/limbatue.h): each call on numbers and slices. It returns 0, or a refusal's number and 256 times its place, and writes the
// values of its answer to a lent array, in the layout that specs/Calls.antt gives.

#![tactic(auto)]

// The version of the library.
pub mod version;

// The numbers of a sheet.
pub mod numbers;

// Settle.
pub mod settle;

// Settle with the marks.
pub mod settle_since;

// Row's check.
pub mod row;

// Compare and finer Compare.
pub mod compare;

// Prime form and finer Prime form.
pub mod form;

// Walk.
pub mod walk;

// Shelf number.
pub mod shelf_number;

// Shelf field.
pub mod shelf_field;

// Squads. (A module may not have the name of a crate.)
pub mod squad_count;

// Frequencies.
pub mod frequency_counts;

// The page.
pub mod printing;
