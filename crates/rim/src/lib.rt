// 01's worked examples as theorems about its triangle A: everything is in specs/.
#![tactic(auto)]
