// What two routes share of one stretch of their links, and of two stretches, one behind the other.
#![tactic(auto)]

ghost use Rattle.std.specs.Prelude.{◌+◌, ◌-◌, ◌<◌};
ghost use Rattle.mesh_stretches.specs.Stretches.{Stretched, HopsShared, LinkShared, Joined};

use mesh::Pair;

// The hops between two places of a line, behind so many of the first route's.
fn hops_between(low: u8, high: u8, before: u8) -> Pair
    ensures { Stretched (high - low) before result.count result.first }
{
    if low < high {
        Pair {
            count: high - low,
            first: before,
        }
    } else {
        Pair::default()
    }
}

// Hops along one line, the first route's from `u` to `v` and the second one's from `s` to `t`: those that go the same way over the same places.
// Four numbers: tried as two structs of places with methods, and a call took 1.15 times the time on a full plan, 1.4 times on a crowded one.
pub fn shared_hops(u: u8, v: u8, s: u8, t: u8) -> Pair
    requires { (u < 8) × (v < 8) × (s < 8) × (t < 8) }
    ensures { HopsShared u v s t result.count result.first }
{
    // To higher places: from the later start to the earlier end.
    if u < v {
        hops_between(u.max(s), v.min(t), s.saturating_sub(u))
    } else {
        hops_between(v.max(t), u.min(s), u.saturating_sub(s))
    }
}

// One link of each route: the injection link of its source or the ejection link of its destination.
pub fn shared_link(same: bool) -> Pair
    ensures { LinkShared same result.count result.first }
{
    if same {
        Pair { count: 1, first: 0 }
    } else {
        Pair::default()
    }
}

// A stretch of so many links of the first route and the one behind it.
pub fn joined(links: u8, x: Pair, y: Pair) -> Pair
    requires { (x.count + y.count < 256) × (links + y.first < 256) }
    ensures { Joined links x.count x.first y.count y.first result.count result.first }
{
    if 0 < x.count {
        Pair {
            count: x.count + y.count,
            ..x
        }
    } else if 0 < y.count {
        Pair {
            first: links + y.first,
            ..y
        }
    } else {
        Pair::default()
    }
}
