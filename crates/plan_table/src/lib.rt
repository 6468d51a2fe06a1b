// Document 01's table of records and their fields: a line here for a line there.
#![tactic(auto)]

ghost use Rattle.std.specs.Prelude.{◌≡◌, ◌≤◌};
ghost use Rattle.plan_table.specs.Table.{tag_of, six_or_seven, body_length, fields_of};

use framing::returned::Fault;
use framing_numbers::Width;

// The records of a plan.
#[derive(Clone, Copy, Debug, PartialEq, Eq)]
pub enum Kind {
    PlatformRecord,
    FlowRecord,
    EndRecord,
}

// The highest allowed value: a number, or one that depends on the platform or on the record.
// A value above the period is a fault of its own.
#[derive(Clone, Copy, Debug, PartialEq, Eq)]
pub enum Limit {
    UpTo(u32),
    BelowNodes,
    UpToPeriod(Fault),
}

// Bytes, lowest value, highest value, and the fault of a value outside them.
#[derive(Clone, Copy, Debug, PartialEq, Eq)]
pub struct Field(pub Width, pub u32, pub Limit, pub Fault);

// Which record a tag names, if any: an Option and no TryFrom, since an unknown tag has nothing to tell.
pub fn tag_of(byte: u8) -> Option<Kind>
    ensures { result ≡ tag_of byte }
{
    match byte {
        0x01 => Some(Kind::PlatformRecord),
        0x02 => Some(Kind::FlowRecord),
        0x7f => Some(Kind::EndRecord),
        _ => None,
    }
}

// A platform record has six bytes, or seven where its length tells so.
fn six_or_seven(told: u16) -> u16
    ensures { (result ≡ six_or_seven told) × (result ≤ 7) }
{
    if told == 7 {
        return 7;
    }
    6
}

// The length that a record must have which tells this one.
pub fn body_length(kind: Kind, told: u16) -> u16
    ensures { result ≡ body_length kind told }
{
    match kind {
        Kind::PlatformRecord => six_or_seven(told),
        Kind::FlowRecord => 20,
        Kind::EndRecord => 0,
    }
}

// A platform's fields have a byte each.
const PLATFORM_FIELDS: [Field; 7] = [
    Field(Width::One, 1, Limit::UpTo(8), Fault::Columns),
    Field(Width::One, 1, Limit::UpTo(8), Fault::Rows),
    Field(Width::One, 1, Limit::UpTo(16), Fault::LinkCycles),
    Field(Width::One, 0, Limit::UpTo(16), Fault::RoutingCycles),
    Field(Width::One, 1, Limit::UpTo(64), Fault::BufferFlits),
    Field(Width::One, 0, Limit::UpTo(3), Fault::Method),
    Field(Width::One, 1, Limit::UpTo(8), Fault::PriorityFlits),
];

const FLOW_FIELDS: [Field; 8] = [
    Field(Width::Two, 0, Limit::UpTo(65534), Fault::Id),
    Field(Width::Two, 1, Limit::UpTo(65535), Fault::Priority),
    Field(Width::One, 0, Limit::BelowNodes, Fault::Source),
    Field(Width::One, 0, Limit::BelowNodes, Fault::Destination),
    Field(Width::Two, 1, Limit::UpTo(65535), Fault::Flits),
    Field(Width::Four, 1, Limit::UpTo(1_000_000_000), Fault::Period),
    Field(
        Width::Four,
        1,
        Limit::UpToPeriod(Fault::DeadlineAbovePeriod),
        Fault::DeadlineZero,
    ), // deadline
    Field(Width::Four, 0, Limit::UpTo(1_000_000_000), Fault::Jitter),
];

// The fields of a record that tells this length.
pub fn fields_of(kind: Kind, told: u16) -> &'static [Field]
    ensures { result.now ≡ fields_of kind told }
{
    match kind {
        Kind::PlatformRecord => &PLATFORM_FIELDS[..usize::from(six_or_seven(told))],
        Kind::FlowRecord => &FLOW_FIELDS,
        Kind::EndRecord => &[],
    }
}
