// What each command does, for a caller: under these conditions it is GOOD, and image and room are these.

#![tactic(auto)]
