// Routes of one rectangular mesh (document 01, "Routes and shared links").
#![tactic(auto)]

pub mod spots;

// What the analysis keeps of an ordered pair of flows: how many links they share, and the place of the first on the first one's route.
// A count of 0 at place 0 is none: document 01 keeps counts and first places so.
#[derive(Debug, Clone, Copy, PartialEq, Eq, Default)]
pub struct Pair {
    pub count: u8,
    pub first: u8,
}
