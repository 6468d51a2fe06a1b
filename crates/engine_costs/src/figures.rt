// What is kept of a flow that has had its turn.
ghost use Rattle.std.specs.Prelude.{◌≡◌, ◌+◌, ◌≤◌, ◌<◌};
ghost use Rattle.engine_costs.specs.Figures.{figures_of};

use plan_values::Flow;
use recurrence::Arrivals;

// The latency, the bound if there is one, when the packets come, and how many of its direct flows are looked at as third ones.
#[derive(Clone, Copy, Debug, Default, PartialEq, Eq)]
pub struct Figures {
    pub cost: u32,
    pub bound: Option<u32>,
    pub arrivals: Arrivals,
    pub seen: usize,
}

impl Figures {
    pub fn of(f: Flow, cost: u32, bound: Option<u32>, seen: usize) -> Self
        requires { (0 < f.period) × (f.period ≤ 1_000_000_000) × (f.jitter ≤ 1_000_000_000) }
        ensures { result ≡ figures_of cost bound seen f }
    {
        Figures {
            cost,
            bound,
            arrivals: Arrivals::new(f.jitter, f.period),
            seen,
        }
    }
}
