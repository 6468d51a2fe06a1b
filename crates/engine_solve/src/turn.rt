// A flow at its turn.
use engine_rows::row::Row;

// Its place in the plan, its latency, what its bound is held against, and its direct flows.
#[derive(Clone, Copy, Debug, PartialEq, Eq)]
pub struct Turn {
    pub place: usize,
    pub cost: u32,
    pub limit: u32,
    pub row: Row,
}
