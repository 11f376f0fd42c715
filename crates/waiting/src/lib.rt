// The waiting theorem: demand 3 and document 01's waiting statement, about whole lists of calls. There is no code here: the claim is in specs/, its proof
// in proofs/.
#![tactic(auto)]
