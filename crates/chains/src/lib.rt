#![tactic(auto)]

// Chains of files, what lies on them, and the walk of a fill: definitions, in specs/.
