// Triangles, edges and rays over places: everything is in specs/.
#![tactic(auto)]
