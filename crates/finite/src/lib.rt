// Every number that a controller can hold is finite, and so are the values and prices that it compares: claims about whole lists of calls. There is no
// code here: the claim is in specs/, its proof in proofs/.
#![tactic(auto)]
