// No code: demand 3, any order, and what runs keep. The statements are in specs/Claims.antt, a proof of each in proofs/Claims.antt.
#![tactic(auto)]
