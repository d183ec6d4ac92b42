// The norms of a sheet's kinds, which of its lines lower the norm, and g.
#![tactic(auto)]

pub mod kinds; // the norms of the kinds, found by sweeps
pub mod lines; // what a line leaves against its kind: whether it lowers the norm, and g
