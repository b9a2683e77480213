#![tactic(auto)]

// The file set: the member list, and the refusals that come before the walk.
pub mod check;
pub mod members;
