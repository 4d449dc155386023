// What refusals 6 to 10 leave of a chart: everything is in specs/ and proofs/.
#![tactic(auto)]
