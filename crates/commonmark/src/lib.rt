#![tactic(auto)]

// CommonMark's own rules for headings and fences beside ours: definitions and theorems, no code.
