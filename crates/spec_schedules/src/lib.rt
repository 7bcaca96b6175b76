// Schedules, their order, step systems, and a list walked by calls. Definitions and laws; no functions.
#![tactic(auto)]
