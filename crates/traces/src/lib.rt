// No code: what holds of every bundle that is run. The statements are in specs/Claims.antt, a proof of each in proofs/Claims.antt.
#![tactic(auto)]
