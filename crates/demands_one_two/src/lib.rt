// Demands 1 and 2 as theorems over the meaning of a step.

#![tactic(auto)]
