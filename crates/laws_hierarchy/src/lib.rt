// What a plain hierarchy is as a fact stands in specs/, its laws in proofs/; there is no code here.

#![tactic(auto)]
