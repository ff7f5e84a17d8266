// The pass: definitions in specs/, laws in proofs/.
#![tactic(auto)]
