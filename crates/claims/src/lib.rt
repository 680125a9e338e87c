// The demands as statements about the definitions that the contracts cite: definitions and proofs, no code.
#![tactic(auto)]
