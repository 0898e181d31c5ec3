// Binary64 numbers and their laws, for the crates above. There is nothing to run: definitions stand in specs/, laws in proofs/.
#![tactic(auto)]
