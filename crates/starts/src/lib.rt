// Every controller that `for_table` makes, and the one that a paper starts with, is fresh; so demand 3 holds of every paper. There is no code here.
#![tactic(auto)]
