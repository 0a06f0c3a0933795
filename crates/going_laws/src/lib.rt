// What holds of a rewind under way, stated in specs/Laws.antt and, beside a reader, in specs/Beside.antt, and proved in proofs/. No code.
#![tactic(auto)]
