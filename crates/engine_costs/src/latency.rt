// The unloaded latency of a flow, and what its bound is held against.
ghost use Rattle.std.specs.Prelude.{◌≡◌, length};
ghost use Rattle.plan.specs.Legal.{LegalPlatform, LegalFlow};
ghost use Rattle.model.specs.Links.{route_of};
ghost use Rattle.model.specs.Latency.{flits_sent, limit as limit_of, latency as latency_of};

use plan_values::{Flow, Platform};

// What a bound is held against: the deadline less the jitter, and nothing where the jitter is not below it.
pub fn limit(f: Flow) -> u32
    ensures { result ≡ limit_of f }
{
    f.deadline.saturating_sub(f.jitter)
}

// The flits that the unloaded latency is worked out from: the packet's and those of its priority.
fn flits_sent(p: Platform, f: Flow) -> u32
    ensures { result ≡ flits_sent p f }
{
    u32::from(f.flits) + u32::from(p.priority_flits)
}

// From the route's length, which is what a flow shares with itself.
pub fn latency(p: Platform, f: Flow, links: u8) -> u32
    requires legal { LegalPlatform p × LegalFlow p f }
    requires links_of_route { links ≡ length (route_of p f) }
    ensures { result ≡ latency_of p f }
{
    let hops = u32::from(links) - 1;
    u32::from(p.link) * (flits_sent(p, f) + hops) + u32::from(p.routing) * hops
}
