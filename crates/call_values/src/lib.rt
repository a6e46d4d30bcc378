// Edge values of calls: a table one cell too short, and a guard that never holds. What was answered stands beside what was due.
#![tactic(auto)]

pub mod answers;
pub mod guards;
pub mod lines;
pub mod patterns;
pub mod tables;
