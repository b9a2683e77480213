#![tactic(auto)]

// Numbers in and out of the leaf calls: the library's states, kinds, levels, links, regions and answers as numbers. For tests of the host alone.
pub mod checks;
pub mod lines;
pub mod links;
pub mod number;
pub mod regions;
pub mod slug;
