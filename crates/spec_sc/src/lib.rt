// Sequential consistency: steps, graphs, the graph call, and the model that it is. Definitions and laws; no functions.
#![tactic(auto)]
