// Laws of the reading call and the step back, stated in specs/ and proved in proofs/. No code.
#![tactic(auto)]
