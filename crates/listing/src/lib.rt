// The page's lines of kinds and fields, over plain values.

#![tactic(auto)]

// The head, a kind with its row, a field with its prime form.
mod line;

pub use line::{put_field, put_head, put_kind};
