#![tactic(auto)]

// The book, what the calls answer, and demand 3 with its proof: definitions, in specs/.
