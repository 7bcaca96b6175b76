// One theory for every memory model: specs/ says what a model is and what its listing promises, proofs/ that it does. There is no code
// here.
#![tactic(auto)]
