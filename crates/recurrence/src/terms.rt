// A direct flow's part in a recurrence: when its packets come, and what each weighs.
ghost use Rattle.std.specs.Prelude.{◌≡◌, ◌+◌, ◌-◌, ◌≤◌, ◌<◌};
ghost use Rattle.recurrence.specs.Rounding.{up};
ghost use Rattle.recurrence.specs.Recurrence.{Arrivals, Term, weighed, delay};
ghost use Rattle.recurrence.specs.Held.{held, Ordered};
ghost use Rattle.recurrence.specs.Limits.{Fair};

use std::marker::Model;

// `last` is the last cycle of a period, counted from 0, and `end` a shift with that added: so one addition and one division round up, in 32 bits.
// Kept so for speed: `div_ceil` by the period was tried, and takes two instructions more in each round. A clause sees the shift and the period.
#[derive(Clone, Copy, Debug, Default, PartialEq, Eq)]
pub struct Arrivals {
    end: u32,
    last: u32,
}

impl Model for Arrivals {
    ghost Value = { Arrivals };

    ghost view = { λ a. held a.end a.last };

    ghost invariant = { λ a. Ordered a.end a.last };

    ghost inverse = { λ v. record { end = v.shift + (v.period - 1); last = v.period - 1 } };
}

impl Arrivals {
    pub fn new(shift: u32, period: u32) -> Self
        requires { (0 < period) × (shift + period ≤ 4_294_967_295) }
        ensures { result ≡ record { shift = shift; period = period } }
    {
        let last = period - 1;
        Arrivals {
            end: shift + last,
            last,
        }
    }

    // "jitter_j + A": the allowance comes to the shift.
    pub fn with_allowance(self, allowance: u32) -> Self
        requires { self.shift + allowance + self.period ≤ 4_294_967_295 }
        ensures { result ≡ record { shift = self.shift + allowance; period = self.period } }
    {
        Arrivals {
            end: self.end + allowance,
            last: self.last,
        }
    }

    // The packets in a window.
    pub fn packets(self, window: u32) -> u32
        requires { window + self.shift + self.period ≤ 4_294_967_295 }
        ensures { result ≡ up (window + self.shift) self.period }
    {
        (window + self.end) / (self.last + 1)
    }
}

// A clause sees the shift, the period and the weight.
#[derive(Clone, Copy, Debug, Default, PartialEq, Eq)]
pub struct Term {
    pub arrivals: Arrivals,
    pub weight: u32,
}

impl Model for Term {
    ghost Value = { Term };

    ghost view = { λ t. weighed t.arrivals t.weight };

    ghost inverse = { λ v. record { arrivals = record { shift = v.shift; period = v.period }; weight = v.weight } };
}

impl Term {
    // The delay that the flow brings in a window x.
    pub(crate) fn delay(&self, x: u32) -> u64
        requires { Fair self.now × (x ≤ 1_000_000_000) }
        ensures { result ≡ delay self.now x }
    {
        u64::from(self.arrivals.packets(x)) * u64::from(self.weight)
    }
}
