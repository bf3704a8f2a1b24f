// Tests over the numbers below n, over lists and by cases: definitions and laws. There is no code here.

#![tactic(auto)]
