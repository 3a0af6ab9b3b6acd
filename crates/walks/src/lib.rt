// No code: what holds of every walk. The statements are in specs/Claims.antt, a proof of each in proofs/Claims.antt.
#![tactic(auto)]
