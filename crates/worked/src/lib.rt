#![tactic(auto)]

// Worked examples of the calls fill, assembly and book, on bytes: theorems, in proofs/, and no function.
