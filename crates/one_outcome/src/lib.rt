// For each public function: any two outcomes that its contract allows are equal.
// `tools/contracts` keeps the laws complete, and prints one that is missing.

#![tactic(auto)]
