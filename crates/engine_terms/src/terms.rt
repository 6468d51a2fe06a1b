// A direct flow's term in a recurrence, by the method really used.
ghost use Rattle.std.specs.Prelude.{◌≡◌, ◌+◌, ◌≤◌, unwrap_or};
ghost use Rattle.engine_terms.specs.Loads.{way_of, cap_by, looked_at, allowance_by, term_by};

use crate::loads::Loads;
use engine_costs::figures::Figures;
use engine_costs::method::method_used;
use model::Method;
use plan_values::Platform;
use recurrence::Term;

// The method and what it takes from the platform.
#[derive(Clone, Copy, Debug, PartialEq, Eq)]
pub struct Way {
    pub method: Method,
    pub platform: Platform,
}

// Three matches: document 01 says a cap, a list and an allowance for each method in its turn.
impl Way {
    pub fn of(platform: Platform) -> Self
        ensures { result ≡ way_of platform }
    {
        Way {
            method: method_used(platform),
            platform,
        }
    }

    // What a hit of a downstream flow costs at most.
    pub fn cap(self, shared: u8) -> u32
        ensures { result ≡ cap_by self.method self.platform shared }
    {
        let p = self.platform;
        match self.method {
            Method::SB => 0,
            Method::XLWX => u32::MAX, // no cap: the lesser of a latency and this is the latency
            Method::IBN => u32::from(p.buffer) * u32::from(p.link) * u32::from(shared),
        }
    }

    // How many of some flows are looked at for a weight and an allowance.
    pub fn looked_at(self, many: usize) -> usize
        ensures { (result ≡ looked_at self.method many) × (result ≤ many) }
    {
        match self.method {
            Method::SB => 0,
            Method::XLWX | Method::IBN => many,
        }
    }

    fn allowance(self, bound: u32, cost: u32, up: u32) -> u32
        requires { (cost ≤ bound) × (up ≤ bound) }
        ensures { (result ≡ allowance_by self.method bound cost up) × (result ≤ bound) }
    {
        match self.method {
            Method::SB => bound - cost,
            Method::XLWX => up,
            Method::IBN => bound - cost,
        }
    }

    // The figures are the direct flow's own, which has a bound.
    pub fn term(self, figures: &Figures, loads: Loads) -> Term
        requires bounded { unwrap_or figures.now.bound 0 ≤ 1_000_000_000 }
        requires arrivals { figures.now.arrivals.shift + figures.now.arrivals.period ≤ 2_000_000_000 }
        requires up { loads.up ≤ unwrap_or figures.now.bound 0 }
        requires down { figures.now.cost + loads.down ≤ unwrap_or figures.now.bound 0 }
        ensures { result ≡ term_by self.method figures.now.arrivals (unwrap_or figures.now.bound 0) figures.now.cost loads.up loads.down }
    {
        let bound = figures.bound.unwrap_or(0);
        let allowance = self.allowance(bound, figures.cost, loads.up);
        Term {
            arrivals: figures.arrivals.with_allowance(allowance),
            weight: figures.cost + loads.down,
        }
    }
}
