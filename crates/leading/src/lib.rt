// Bytes that lead a reader on, in whatever windows they are read: stated in specs/ and proved in proofs/. No code.
#![tactic(auto)]
