// The cases of document 01 that are marked to be proved, and examples, as definitions in specs/ and proofs/.
#![tactic(auto)]
