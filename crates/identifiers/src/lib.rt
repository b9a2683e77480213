#![tactic(auto)]

// Identifiers by the pandoc manual beside our anchors: definitions and theorems, no code.
