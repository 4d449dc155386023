// Theorems about the faces that a search opens on an accepted chart: everything is in specs/.
#![tactic(auto)]
