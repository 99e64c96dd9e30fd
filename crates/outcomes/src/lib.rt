// The outcome chart: which sets of actions the complete runs of a process leave. And the same over the codes of three levels.
#![tactic(auto)]

pub mod chart;
pub mod rows;
