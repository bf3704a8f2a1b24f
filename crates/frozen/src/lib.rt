// 01's step, reset and marking as they were signed, in their own words: the page to hold against 01 alone. No request changes it; each
// proves that today's step is this one for every call that 01 knows.

#![tactic(auto)]
