// Nothing stands behind a view that it does not show: stated in specs/Shown.antt and proved in proofs/. No code.
#![tactic(auto)]
