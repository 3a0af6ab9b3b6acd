// No code: what is written of a state is read back, stated in specs/ and proved in proofs/.
#![tactic(auto)]
