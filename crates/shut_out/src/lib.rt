// For each entry point: the wrong programs that its contract shuts out, each by a call or two after which it has broken the
// contract.

#![tactic(auto)]
