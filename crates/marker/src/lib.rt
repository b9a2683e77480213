#![tactic(auto)]

// What a line is to the marker scan of document 01, and the markers in it.
pub mod line;
pub mod problem;
pub mod span;
