// Tables of rows, lines, effects, orders, marks and classes, over plain arrays.

#![tactic(auto)]

// Tables of rows, and the decomposition of counts by them.
pub mod table;
// The lines of a sheet as one table of bytes.
pub mod lines;
// Comparisons of effects; the candidates for a row.
pub mod effect;
// In which sense fields are compared.
pub mod sense;
// The order in which the kinds' rows are found.
pub mod order;
// Tables of marks: which classes of lines a field may use.
pub mod marks;
// What the lines do: which of them match, and the classes of the lines.
pub mod effects;
