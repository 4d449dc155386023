// The exported calls on triangle A, as theorems about their definitions: everything is in specs/.
#![tactic(auto)]
