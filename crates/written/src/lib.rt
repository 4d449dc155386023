// Theorems about a chart that is written back: everything is in specs/.
#![tactic(auto)]
