// Every load inside the rim has a home: everything is in specs/ and proofs/.
#![tactic(auto)]
