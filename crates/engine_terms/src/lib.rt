// What a direct flow brings to a recurrence: the loads of third flows between two, and its term by the method really used.
#![tactic(auto)]

pub mod kept;
pub mod loads;
pub mod terms;
