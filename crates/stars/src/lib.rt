// The star of a new vertex and the flips about it: everything is in specs/.
#![tactic(auto)]
