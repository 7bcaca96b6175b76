// Document 01's programs with known lists, computed against the definitions.
#![tactic(auto)]
