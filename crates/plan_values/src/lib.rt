// The values that a plan's records hold, and what stands where none were read.
#![tactic(auto)]

ghost use Rattle.std.specs.Prelude.{◌≡◌, ◌+◌, ◌≤◌, length};
ghost use Rattle.framing.specs.Header.{length_at};
ghost use Rattle.plan_values.specs.Values.{platform_at, platform_length, flow_at, blank_platform, blank_flow};

use framing::header::length_at;
use framing_reader::Reader;

// For C: the method by its number, and 0 priority flits for none.
#[repr(C)]
#[derive(Clone, Copy, Debug, Default, PartialEq, Eq)]
pub struct Platform {
    pub columns: u8,
    pub rows: u8,
    pub link: u8,
    pub routing: u8,
    pub buffer: u8,
    pub method: u8,
    pub priority_flits: u8,
}

#[repr(C)]
#[derive(Clone, Copy, Debug, Default, PartialEq, Eq)]
pub struct Flow {
    pub id: u16,
    pub priority: u16,
    pub source: u8,
    pub destination: u8,
    pub flits: u16,
    pub period: u32,
    pub deadline: u32,
    pub jitter: u32,
}

// Room for the flows of a plan, which C reads and writes: there is no heap.
pub type Flows = [Flow; 64];

// The values of a record, by a reader that starts at its tag and travels from field to field.
#[tactic(auto, using(crate::proofs::Seventh::seventh, crate::proofs::Seventh::no_seventh))]
pub fn platform_at(r: Reader) -> Platform
    requires { (r.at + 9 ≤ length r.plan.now) × (r.at + 3 + length_at r.plan.now r.at ≤ length r.plan.now) }
    ensures { result ≡ platform_at r.entry.plan.now r.entry.at }
{
    let mut fields = r.past(3);
    let six = Platform {
        columns: fields.take(),
        rows: fields.take(),
        link: fields.take(),
        routing: fields.take(),
        buffer: fields.take(),
        method: fields.take(),
        priority_flits: 0,
    };
    if length_at(r) == 7 {
        return Platform {
            priority_flits: fields.take(),
            ..six
        };
    }
    six
}

// The body length of the record that holds a platform.
#[tactic(auto, using(crate::proofs::Seventh::six_for_none, crate::proofs::Seventh::seven_for_some))]
pub fn platform_length(p: Platform) -> u8
    ensures { (result ≡ platform_length p) × (6 ≤ result) × (result ≤ 7) }
{
    if p.priority_flits == 0 { 6 } else { 7 }
}

pub fn flow_at(r: Reader) -> Flow
    requires { r.at + 23 ≤ length r.plan.now }
    ensures { result ≡ flow_at r.entry.plan.now r.entry.at }
{
    let mut fields = r.past(3);
    Flow {
        id: fields.take(),
        priority: fields.take(),
        source: fields.take(),
        destination: fields.take(),
        flits: fields.take(),
        period: fields.take(),
        deadline: fields.take(),
        jitter: fields.take(),
    }
}

// What stands where none was read: a plan has room for all its flows, without a heap, and a reading begins without a platform.
pub fn blank_platform() -> Platform
    ensures { result ≡ blank_platform }
{
    Platform::default()
}

pub fn blank_flow() -> Flow
    ensures { result ≡ blank_flow }
{
    Flow::default()
}
