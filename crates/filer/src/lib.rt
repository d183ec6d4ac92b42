// The filer: Settle, with the marks and without, Row, Compare, Prime form, finer Compare and finer Prime form. Each but Row takes the sheet's bytes and checks them anew.

#![tactic(auto)]

// What Compare answers.
pub mod answers;

// The core that serves every call but Row: a sheet is checked and settled once.
pub mod settlement;

// Settle, and Settle with the marks.
pub mod settle;

// Row, and the check of its inputs.
pub mod row;

// Compare and finer Compare.
pub mod compare;

// Prime form and finer Prime form.
pub mod form;

pub use answers::Verdict;
