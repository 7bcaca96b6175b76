// What the calls for C say in a word, and what the listing program prints. Definitions and laws; no functions.
#![tactic(auto)]
