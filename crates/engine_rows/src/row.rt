// The list of a flow's direct flows.
ghost use Rattle.std.specs.Prelude.{◌≡◌, ◌≤◌, ◌<◌, ℕ, get_or, take, length};
ghost use Rattle.std.specs.List.{All};

// The places in the plan of the direct flows, `many` of them. An array with its length, since there is no heap (an ArrayVec is no Copy, and rows are kept in an array).
#[derive(Clone, Copy, Debug, PartialEq, Eq)]
pub struct Row {
    pub direct: [u8; 64],
    pub many: usize,
    ghost few: { many ≤ 64 },
    ghost inside: { (m : ℕ) → m < many → get_or direct m 0 < 64 },
}

impl Row {
    pub fn direct(&self) -> &[u8]
        ensures named { result.now ≡ take self.now.many self.now.direct }
        ensures many { length result.now ≡ self.now.many }
        ensures inside { All (λ j. j < 64) result.now }
    {
        &self.direct[..self.many]
    }
}
