// Demand 3, stated in specs/Demand.antt and proved in proofs/. No code.
#![tactic(auto)]
