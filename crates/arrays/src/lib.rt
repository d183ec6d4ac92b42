// What a call from C returns and writes: a number, and arrays that are lent.

#![tactic(auto)]

// The number returned, and the answer array.
pub mod reply;

// A session that is lent as an array.
pub mod session;

// The values of each answer, in its layout.
pub mod values;
