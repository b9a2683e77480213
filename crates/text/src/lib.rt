#![tactic(auto)]

// Texts as bytes: searches, patterns, trimming and lines.
pub mod ascii;
pub mod bytes;
pub mod lines;
pub mod part;
pub mod pattern;
pub mod space;
