// Signs of whole numbers by enumeration, and finite sums: everything is in specs/.
#![tactic(auto)]
