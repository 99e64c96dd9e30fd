// The starred plans of document 01, and what is promised of each: specs/TriedPlans.antt states it.
#![tactic(auto)]
