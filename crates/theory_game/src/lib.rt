// Who wins a game goes by what is seen of a state: definitions and laws; no functions.
#![tactic(auto)]
