// The round game on a pair of fields, within an allowance of pairs examined.
#![tactic(auto)]

pub mod challenges; // the challenges to a pair of fields, by number
pub mod rounds; // a pair of fields at a number of rounds: challenge and reply
