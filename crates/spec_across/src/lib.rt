// One memory model against another: outcomes across models, robust programs, and what the calls about them answer. Definitions and laws; no
// functions.
#![tactic(auto)]
