// The rows of a stage, of an accepted sheet.

#![tactic(auto)]

// The table of the lines.
pub mod line_table;
// The forms of what the lines leave.
pub mod line_forms;
// The row of a kind.
pub mod row;
// The rows of a stage.
pub mod stage_rows;
