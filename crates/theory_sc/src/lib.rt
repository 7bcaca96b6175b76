// What the search's rules leave of the full schedules is the list. The search by these rules, with no test at a full schedule, as a
// definition.
#![tactic(auto)]
