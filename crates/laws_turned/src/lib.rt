// What is upstream stands in specs/, what the turned graph's paths, names, refusals and answers are in proofs/; there is no code here.

#![tactic(auto)]
