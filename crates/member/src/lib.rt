#![tactic(auto)]

// A member of an assembly: the lines it keeps.
pub mod lines;
