// Document 01's checked examples that are to be proved together, the rows P1 to P10: one table in specs/, one theorem in proofs/. There is no code here.
#![tactic(auto)]
