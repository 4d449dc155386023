// Theorem: on an accepted chart the search for a load opens the faces whose circle strictly holds it, and lists their border, a closed ring. Everything is in specs/ and proofs/.
#![tactic(auto)]
