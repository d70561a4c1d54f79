// The Petri net of document 001, section 3.2: definitions in specs/, theorems in proofs/. Nothing is computed here.
#![tactic(auto)]
