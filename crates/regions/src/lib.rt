#![tactic(auto)]

// The regions of a host: what a fill finds in a file before it takes anything in.
pub mod host;
pub mod own;
