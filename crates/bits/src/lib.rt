// Bit strings, and formats as trees of fields, for the crates above. There is nothing to run: definitions stand in specs/, theorems in proofs/.
#![tactic(auto)]
