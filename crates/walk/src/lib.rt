#![tactic(auto)]

// A walk without its limits, and the limits that judge it: definitions and laws, no function.
