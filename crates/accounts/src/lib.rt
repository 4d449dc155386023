// The batch and the tally as definitions, and demand 3 about every list of batches: everything is in specs/ and proofs/.
#![tactic(auto)]
