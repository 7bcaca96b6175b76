// Searches of any step system and of any model: cuts, late steps, sleep sets, the test at a full schedule. Definitions and laws; no
// functions.
#![tactic(auto)]
