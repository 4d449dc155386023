// Euler's inequality for accepted charts: everything is in specs/.
#![tactic(auto)]
