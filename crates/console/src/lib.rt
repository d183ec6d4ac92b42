// What a program has of its surroundings: standard input, standard output, standard error and the words of its command line, each lent by the caller.
// What the system reads and writes no contract can say; of a reader and a writer whose bytes are known, these say which bytes were read and written.

#![tactic(auto)]

// A sheet from standard input.
mod input;

pub use input::{INPUT, read_sheet};

// Texts to standard output and standard error.
mod output;

pub use output::{explain, print, unread};

// The words of the command line.
mod command_line;

pub use command_line::arguments;
