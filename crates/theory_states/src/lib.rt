// Answers by states, for any step system and any rule: how many schedules lie behind a state, and what a table of states already met may
// say of them. There is no code here.
#![tactic(auto)]
