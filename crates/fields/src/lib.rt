// What a stored vector is read by: its numbers, the answer that it gives, and the job that the answer leaves.
#![tactic(auto)]

pub mod answer;
pub mod jobs;
pub mod number;
