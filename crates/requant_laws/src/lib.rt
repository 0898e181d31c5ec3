// Raw values, LFE values, coefficients and digits are one to one in their codes, and lie within bounds: theorems in proofs/.
#![tactic(auto)]
