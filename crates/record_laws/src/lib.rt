// What the record call and the writer's call do together, stated in specs/Laws.antt and proved in proofs/. No code.
#![tactic(auto)]
