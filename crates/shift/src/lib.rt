#![tactic(auto)]

// Lines with what they are, and headings moved.
pub mod ends;
pub mod level;
