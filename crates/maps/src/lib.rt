// No code: what holds of every installed map.
#![tactic(auto)]
