// "The first that applies decides": lists of rules, which of them decides, and why.

#![tactic(auto)]
