// What a program's full schedules come to, by states under total store order: the first listed schedule whose outcome passes a test. There is no
// code here.
#![tactic(auto)]
