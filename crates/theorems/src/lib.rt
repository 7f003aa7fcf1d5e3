// The theorems: laws over the definitions of the other crates that no proof of a function cites. In proofs/, no code.
#![tactic(auto)]
