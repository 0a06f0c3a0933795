// What holds of rewinding beside a reader, stated in specs/Laws.antt and proved in proofs/. No code.
#![tactic(auto)]
