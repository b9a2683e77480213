#![tactic(auto)]

// Headings of document 01: the walk over lines that finds them, their levels and the shift, and hand-written contents.
pub mod contents;
pub mod level;
pub mod walk;
