// Programs that are robust by their code: no store, or a fetch and add or compare and swap between each store and the next load. Definitions
// and laws; no functions.
#![tactic(auto)]
