// The retained results of an image as a list by age, newest first: definitions and laws.

#![tactic(auto)]
