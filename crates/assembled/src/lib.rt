#![tactic(auto)]

// Members joined into one text: what an assembly makes, its faults and running texts, and its walk: definitions, in specs/.
