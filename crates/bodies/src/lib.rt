// What the bodies of a plan file's types, pairs and rule may hold. The nodes have a crate of their own.
#![tactic(auto)]

pub mod pairs;
pub mod rule;
pub mod types;
