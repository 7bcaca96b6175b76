// How robustness is decided: the text of every graph of total store order is read back and judged. Laws; no functions.
#![tactic(auto)]
