// The definitions of document 01, which every contract of the crates above cites, stand in specs/; there is no code here.

#![tactic(auto)]
