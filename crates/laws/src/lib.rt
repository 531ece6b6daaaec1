// The laws over the definitions of `lineage` stand in proofs/; there is no code here.

#![tactic(auto)]
