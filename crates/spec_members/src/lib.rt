// Members of the list by their number: what the calls say that give the k-th one and the number of one. Definitions and laws; no functions.
#![tactic(auto)]
