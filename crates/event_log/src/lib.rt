#![tactic(auto)]

// Events kept as words in a log, so that their rows can be written once their places are known; and where what a scan finds goes.
pub mod sink;
pub mod word;
