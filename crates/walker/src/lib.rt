// The walk: two fields tried at 1, 2, .. rounds, within the allowance of a desk of a session.
#![tactic(auto)]

pub mod entry; // the session, the answer and the call itself

pub use entry::{Answer, DESKS, Session, Walked, check_walk, walk};
