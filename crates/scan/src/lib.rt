#![tactic(auto)]

// The marker scan of document 01: what is open at a line, what it gives, the lines that have to be looked at, and the regions one after the other.
pub mod event;
pub mod region;
pub mod seek;
pub mod state;
