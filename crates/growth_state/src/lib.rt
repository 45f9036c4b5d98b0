// What the tables of growth hold, and the laws of that. There is no code here.
#![tactic(auto)]
