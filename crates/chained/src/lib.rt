// Calls one after the other, known by the callers' laws alone.

#![tactic(auto)]
