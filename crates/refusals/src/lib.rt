// Theorem: which refusals each public call can give, for all arguments: everything is in specs/ and proofs/.
#![tactic(auto)]
