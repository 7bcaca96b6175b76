// Total store order: store buffers, steps, graphs, and the model that it is. Definitions and laws; no functions.
#![tactic(auto)]
