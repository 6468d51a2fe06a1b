// The bytes of a plan's records.
ghost use Rattle.std.specs.Prelude.{◌≡◌, ◌+◌, ◌≤◌, take};
ghost use Rattle.plan_values.specs.Values.{platform_length};
ghost use Rattle.writer_bytes.specs.PlanBytes.{platform_bytes, flow_bytes};

use framing::records::Layout;
use plan_values::{Flow, Platform, platform_length};

// How many bytes the platform's record has: 9 or 10.
pub(crate) fn platform_size(p: Platform) -> usize
    ensures { (result ≡ 3 + platform_length p) × (result ≤ 10) }
{
    3 + usize::from(platform_length(p))
}

// Ten bytes, since there is no heap: the first so many of these; the last is left out where the platform has no priority flits.
#[tactic(auto, using(crate::proofs::Putting::first_bytes))]
pub(crate) fn platform_bytes(p: Platform) -> [u8; 10]
    ensures { take (3 + platform_length p) result ≡ platform_bytes p }
{
    [
        0x01,
        0,
        platform_length(p),
        p.columns,
        p.rows,
        p.link,
        p.routing,
        p.buffer,
        p.method,
        p.priority_flits,
    ]
}

// The layout of a flow's record.
pub(crate) struct FlowRecord;

impl Layout<Flow, 23> for FlowRecord {
    ghost made = { flow_bytes };

    #[tactic(auto, using(framing::proofs::BigEndian::two_of_std, framing::proofs::BigEndian::four_of_std), unfolding(crate::specs::PlanBytes::flow_bytes))]
    fn record(flow: &Flow) -> [u8; 23] {
        let [id1, id0] = flow.id.to_be_bytes();
        let [priority1, priority0] = flow.priority.to_be_bytes();
        let [flits1, flits0] = flow.flits.to_be_bytes();
        let [period3, period2, period1, period0] = flow.period.to_be_bytes();
        let [deadline3, deadline2, deadline1, deadline0] = flow.deadline.to_be_bytes();
        let [jitter3, jitter2, jitter1, jitter0] = flow.jitter.to_be_bytes();
        [
            0x02,
            0,
            20,
            id1,
            id0,
            priority1,
            priority0,
            flow.source,
            flow.destination,
            flits1,
            flits0,
            period3,
            period2,
            period1,
            period0,
            deadline3,
            deadline2,
            deadline1,
            deadline0,
            jitter3,
            jitter2,
            jitter1,
            jitter0,
        ]
    }
}
