// The entries of runs without their order. There is no code here: the theorem is in specs/Reorder.antt.
#![tactic(auto)]
