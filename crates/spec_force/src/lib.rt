// Who can force the failure. Definitions and laws; no functions.
#![tactic(auto)]
