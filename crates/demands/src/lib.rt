// The demands on the calls stand in specs/, their proofs in proofs/; there is no code here.

#![tactic(auto)]
