// The key of a state under total store order, and that it decides what the search finds behind it. There is no code here.
#![tactic(auto)]
