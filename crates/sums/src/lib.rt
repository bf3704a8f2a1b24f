// What a row of a shelf is, and its sum: definitions and laws.

#![tactic(auto)]
