// One flow's own figures: its latency and limit, the method, and what is kept of it.
#![tactic(auto)]

pub mod figures;
pub mod latency;
pub mod method;
