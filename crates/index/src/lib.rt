#![tactic(auto)]

// The index of a file set: names, the lines of the index, and its records once they are read, against each other and the contents.
pub mod file_set;
pub mod line;
pub mod name;
pub mod records;
pub mod rows;
