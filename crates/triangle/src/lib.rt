// 01's triangle A, its file and its tables: everything is in specs/.
#![tactic(auto)]
