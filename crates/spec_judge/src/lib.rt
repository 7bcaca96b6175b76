// Consistent graphs, graph texts, and the judge's answers. Definitions and laws; no functions.
#![tactic(auto)]
