// A REBUILD in parts: over two strings, in any order of its list, range by range.

#![tactic(auto)]
