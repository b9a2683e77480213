#![tactic(auto)]

// Demands 1 and 3 of the calls, on what a caller finds in the six numbers and the buffers: statements, in specs/, and their proofs.
