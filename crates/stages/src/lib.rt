// The decomposition base of an accepted sheet, from stage to stage. The laws of the stages that the code cites are in proofs/.

#![tactic(auto)]

// What is kept of the stages.
pub mod kept;
// The stages one after the other, up to the settled one.
pub mod settle;
// A sheet settled by its reached part.
pub mod reached;
// The least stage that parts two fields.
pub mod parting;
