// No code: document 01's edges P1 to P12, each once. The statements are in specs/Edges.antt, one line a number, a proof of each in
// proofs/Edges.antt.
#![tactic(auto)]
