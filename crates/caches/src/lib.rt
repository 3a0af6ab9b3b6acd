// No code: what the TLB's definitions promise, stated in specs/ and proved in proofs/.
#![tactic(auto)]
