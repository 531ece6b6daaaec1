// The laws of answers over the definitions of `lineage` stand in proofs/, the theorems for the reader in proofs/Demands.antt; there is no code here.

#![tactic(auto)]
