#![tactic(auto)]

// Links: the targets of a line, and what they become.
pub mod links;
pub mod target;
