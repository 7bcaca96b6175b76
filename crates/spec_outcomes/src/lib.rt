// The outcomes of a program, and what calls that go by outcomes leave in the scratch that they are lent. Definitions and laws; no functions.
#![tactic(auto)]
