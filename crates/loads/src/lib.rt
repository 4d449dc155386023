// What holds of every load on an accepted chart: everything is in specs/ and proofs/.
#![tactic(auto)]
