// What is kept of a flow that has had its turn.
ghost use Rattle.std.specs.Prelude.{◌≡◌, ◌≤◌, length, take};

use engine_costs::figures::Figures;

// Its figures, the places of its direct flows, of which `figures.seen` are looked at as third ones, and by place the hits on it. Arrays, since there is no heap.
#[derive(Clone, Copy, Debug, PartialEq, Eq)]
pub struct Kept {
    pub figures: Figures,
    pub direct: [u8; 64],
    pub hits: [u32; 64],
}

// By place in the plan. A place is an index of this array: a type of places below 64 would be turned into one at each use.
pub type KeptTable = [Kept; 64];

impl Kept {
    // The places of those of its direct flows that are looked at as third ones.
    pub(crate) fn thirds(&self) -> &[u8]
        requires { self.now.figures.seen ≤ 64 }
        ensures named { result.now ≡ take self.now.figures.seen self.now.direct }
        ensures many { length result.now ≡ self.now.figures.seen }
    {
        &self.direct[..self.figures.seen]
    }
}
