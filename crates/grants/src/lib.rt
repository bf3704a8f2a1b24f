// What a decision says of its input: theorems over the definition of the checks, and no code.

#![tactic(auto)]
