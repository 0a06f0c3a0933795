// Lists of reading calls: definitions in specs/, and what holds of them, in proofs/. No code.
#![tactic(auto)]
