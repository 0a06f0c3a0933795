// Why the reading of a record is refused: definitions in specs/, and what holds of them, in proofs/. No code.
#![tactic(auto)]
