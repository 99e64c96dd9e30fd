// The two theorems that the product rests on: specs/Theorems.antt states them.
#![tactic(auto)]
