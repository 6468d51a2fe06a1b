// What third flows bring to a pair of flows.
ghost use Rattle.std.specs.Prelude.{◌≡◌, ℕ, ◌+◌, ◌≤◌, ◌<◌, get_or};
ghost use Rattle.engine_terms.specs.Loads.{up_part, down_part};
ghost use Rattle.pairs.specs.Pairs.{no_pair};
ghost use Rattle.engine_terms.specs.Kept.{cost_at, up_between, down_between};

use crate::kept::{Kept, KeptTable};
use pairs::PairRow;

// The hits of the upstream flows at their latencies, and of the downstream flows at no more than the cap.
#[derive(Clone, Copy, Debug, PartialEq, Eq)]
pub struct Loads {
    pub up: u32,
    pub down: u32,
}

// The links that a third flow shares with the first flow, its first place on the second's route, its hits and its latency.
#[derive(Clone, Copy, Debug, PartialEq, Eq)]
struct Third {
    shared: u8,
    place: u8,
    hits: u32,
    cost: u32,
}

impl Loads {
    // The loads with a third flow looked at.
    fn with_third(self, third: Third, first: u8, cap: u32) -> Loads
        requires { (self.up + up_part third.shared third.place first third.hits third.cost ≤ 1_000_000_000) × (self.down + down_part third.shared third.place first cap third.hits third.cost ≤ 1_000_000_000) }
        ensures { (result.up ≡ self.up + up_part third.shared third.place first third.hits third.cost) × (result.down ≡ self.down + down_part third.shared third.place first cap third.hits third.cost) }
    {
        // "not direct for i": k is above j and j above i, so that sharing a link decides (`model` `Sides.indirect_by_count`).
        if 0 < third.shared {
            return self;
        }
        if third.place < first {
            return Loads {
                up: self.up + third.hits * third.cost,
                ..self
            };
        }
        Loads {
            down: self.down + third.hits * third.cost.min(cap),
            ..self
        }
    }
}

// The flow at k as a third one between a first flow, with which each shares so many links, and a second one, on whose route these are the places.
fn third_between(
    kept: &KeptTable,
    second: &Kept,
    shared: &PairRow,
    places: &PairRow,
    k: usize,
) -> Third
    requires { k < 64 }
    ensures { result ≡ record { shared = (get_or shared.now k no_pair).count; place = (get_or places.now k no_pair).first; hits = get_or second.now.hits k 0; cost = cost_at kept.now k } }
{
    Third {
        shared: shared[k].count,
        place: places[k].first,
        hits: second.hits[k],
        cost: kept[k].figures.cost,
    }
}

// Over the direct flows of the second that are looked at; `first` is the first flow's place on the second's route. Rows of the pair table,
// and no places of the two flows, of which more would have to be asked.
pub fn sum_loads(
    kept: &KeptTable,
    second: &Kept,
    shared: &PairRow,
    places: &PairRow,
    first: u8,
    cap: u32,
) -> Loads
    requires below_64 { (second.now.figures.seen ≤ 64) × ((m : ℕ) → m < second.now.figures.seen → get_or second.now.direct m 0 < 64) }
    requires sums { (up_between kept.now second.now shared.now places.now first ≤ 1_000_000_000) × (down_between kept.now second.now shared.now places.now first cap ≤ 1_000_000_000) }
    ensures { (result.up ≡ up_between kept.now second.now shared.now places.now first) × (result.down ≡ down_between kept.now second.now shared.now places.now first cap) }
{
    let mut loads = Loads { up: 0, down: 0 };
    for k in second.thirds() {
        let third = third_between(kept, second, shared, places, usize::from(*k));
        loads = loads.with_third(third, first, cap);
    }
    loads
}
