// The key of a state of the search under sequential consistency: what is behind a state goes by it alone. There is no code here.
#![tactic(auto)]
