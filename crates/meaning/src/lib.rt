// What a rule means: the two values of each of its parts at a set of finished actions. What stands here as code is their type; the
// definitions and their laws are in specs/ and proofs/, and the function that computes them is in the crate `rule`.
#![tactic(auto)]

// The two values of a part of the rule.
#[derive(Clone, Copy)]
pub struct Value {
    pub positive: bool,
    pub negative: bool,
}
