// A flow's row: its direct flows, the searches among them, and the hits on it.
#![tactic(auto)]

pub mod hits;
pub mod row;
pub mod rows;
pub mod search;
