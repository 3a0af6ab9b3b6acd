// No code: no published contract asks anything, and none leaves room for a second answer. What that means is in specs/OneAnswer.antt, said of
// each published operation in specs/Claims.antt; a proof of each is in proofs/Claims.antt.
#![tactic(auto)]
