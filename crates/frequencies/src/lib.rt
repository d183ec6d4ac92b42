// How common each answer is (request 8 of document 02): of the fields of a size, how many are the same as a field of a sheet, and how many part from it at each stage. The call takes the
// sheet's bytes and checks them anew.

#![tactic(auto)]

// How many of the fields each stage relates to the given one.
pub mod related;

// The call.
pub mod entry;

pub use entry::frequencies;
