// When two edge lists come to the same index stands in specs/, that they do in proofs/; there is no code here.

#![tactic(auto)]
