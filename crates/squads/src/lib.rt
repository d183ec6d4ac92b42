// How many squads (request 5 of document 02): how often one field of a sheet goes into another. The call takes the sheet's bytes and checks them anew.

#![tactic(auto)]

// The call.
pub mod entry;

pub use entry::squads;
