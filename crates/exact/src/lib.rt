// Whole numbers in f64: laws alone, everything is in specs/ and proofs/.
#![tactic(auto)]
