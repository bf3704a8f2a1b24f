// Demand 3: what a row's sum is after any run of calls, and that a drive's blocks can be rebuilt.

#![tactic(auto)]
