// Both sides of each edge: twelve worked examples as one table in specs/, proved by one statement about the definitions in proofs/.
#![tactic(auto)]
