// The checks of document 01, "What sends a plan back", in their order within a record, which its reader stands at.
#![tactic(auto)]

ghost use Rattle.std.specs.Prelude.{◌≡◌, ◌+◌, ◌^◌, ◌≤◌, ◌<◌, ◌==◌, length, map};
ghost use Rattle.std.specs.List.{list_any};
ghost use Rattle.framing.specs.Header.{length_at};
ghost use Rattle.plan_table.specs.Table.{body_length, refusal_above, refusal_of};
ghost use Rattle.plan_checks.specs.declared.Names.{Names};
ghost use Rattle.plan_checks.specs.Checks.{period_at, limits_at, misplaced, is_wrong_length, no_room, header_at, frame_at, above, outside, clash_at, tail_at, rest_at};

use framing::header::{body_cut, header_cut, length_at, tag_at};
use framing::returned::{Fault, Refusal};
use framing_reader::Reader;
use plan_table::{Field, Kind, Limit, body_length, tag_of};
use plan_values::{Flow, Platform, flow_at};

// What the limits of a record's fields depend on.
#[derive(Clone, Copy, Debug, PartialEq, Eq)]
pub struct Limits {
    pub nodes: u32,
    pub period: u32,
}

// 0 where the record has none: only a deadline's limit asks for it. A match, since the kinds are a closed list.
fn period_at(r: Reader, kind: Kind) -> u32
    requires { r.at + 3 + body_length kind (length_at r.plan.now r.at) ≤ length r.plan.now }
    ensures { result ≡ period_at r.entry.plan.now r.entry.at kind }
{
    match kind {
        Kind::FlowRecord => r.past(11).number(),
        Kind::PlatformRecord | Kind::EndRecord => 0,
    }
}

pub fn limits_at(r: Reader, kind: Kind, platform: Platform) -> Limits
    requires { r.at + 3 + body_length kind (length_at r.plan.now r.at) ≤ length r.plan.now }
    ensures { result ≡ limits_at r.entry.plan.now r.entry.at kind platform }
{
    Limits {
        nodes: u32::from(platform.columns) * u32::from(platform.rows),
        period: period_at(r, kind),
    }
}

// 4: the first record isn't a platform, or a platform comes later.
fn is_misplaced(first: bool, kind: Kind) -> bool
    ensures { result ≡ misplaced first kind }
{
    first != matches!(kind, Kind::PlatformRecord)
}

// 3: the length is not the tag's.
fn wrong_length(r: Reader, kind: Kind) -> bool
    requires { r.at + 3 ≤ length r.plan.now }
    ensures { result ≡ is_wrong_length r.entry.plan.now r.entry.at kind }
{
    let told = length_at(r);
    told != body_length(kind, told)
}

// 6: a 65th flow.
fn no_room(kind: Kind, count: usize) -> bool
    ensures { result ≡ no_room kind count }
{
    matches!(kind, Kind::FlowRecord) && 64 <= count
}

// 4, 3, 1, 6: what the record's kind asks of its header.
fn check_header(r: Reader, kind: Kind, count: usize) -> Result<Kind, Refusal>
    requires { r.at + 3 ≤ length r.plan.now }
    ensures { result ≡ header_at r.entry.plan.now r.entry.at kind count }
{
    if is_misplaced(r.at == 0, kind) {
        return Err(Refusal(Fault::Misplaced, r.at));
    }
    if wrong_length(r, kind) {
        return Err(Refusal(Fault::WrongLength, r.at + 1));
    }
    if body_cut(r) {
        return Err(Refusal(Fault::Cut, r.at));
    }
    if no_room(kind, count) {
        return Err(Refusal(Fault::FlowTooMany, r.at));
    }
    Ok(kind)
}

// 1, 2, and then by the record's kind: both answers of the Option stand side by side.
pub fn check_frame(r: Reader, count: usize) -> Result<Kind, Refusal>
    ensures { result ≡ frame_at r.entry.plan.now r.entry.at count }
{
    if header_cut(r) {
        return Err(Refusal(Fault::Cut, r.at));
    }
    let tag = tag_of(tag_at(r));
    match tag {
        Some(kind) => check_header(r, kind, count),
        None => Err(Refusal(Fault::UnknownTag, r.at)),
    }
}

// Two matches of a limit, here and in `refusal_above`: one asks of a value, the other names its fault, and the document says each in a sentence.
fn is_above(limits: Limits, limit: Limit, value: u32) -> bool
    ensures { result ≡ above limits limit value }
{
    match limit {
        Limit::UpTo(highest) => highest < value,
        Limit::BelowNodes => limits.nodes <= value,
        Limit::UpToPeriod(_) => limits.period < value,
    }
}

// A field outside its values. No method: Field is another crate's.
pub fn is_outside(limits: Limits, field: Field, value: u32) -> bool
    ensures { result ≡ outside limits field value }
{
    let Field(_, lowest, limit, _) = field;
    value < lowest || is_above(limits, limit, value)
}

// Above the highest: the line's fault, or the limit's own.
fn refusal_above(limit: Limit, fault: Fault) -> Fault
    ensures { result ≡ refusal_above limit fault }
{
    match limit {
        Limit::UpTo(_) | Limit::BelowNodes => fault,
        Limit::UpToPeriod(own) => own,
    }
}

// Which fault a value outside a field's values is.
pub fn refusal_of(field: Field, value: u32) -> Fault
    ensures { result ≡ refusal_of field value }
{
    let Field(_, lowest, limit, fault) = field;
    if value < lowest {
        return fault;
    }
    refusal_above(limit, fault)
}

// What no two flows may have alike. Kept beside the flows, since a caller that wants no flows, as the conversion, then has none in memory.
#[derive(Clone, Copy, Debug, Default, PartialEq, Eq)]
pub struct Names {
    pub id: u16,
    pub priority: u16,
}

// Whether an earlier flow's id is this one, or its priority. One function for each field: a closure that names the field would be longer than the search.
// Every flow is looked at, several at a time, which is faster than to stop at the first (`any`).
fn has_id(flows: &[Names], id: u16) -> bool
    ensures { result ≡ list_any (λ (f : Names). f.id == id) flows.now }
{
    let mut found = false;
    for f in flows {
        found |= f.id == id;
    }
    found
}

fn has_priority(flows: &[Names], priority: u16) -> bool
    ensures { result ≡ list_any (λ (f : Names). f.priority == priority) flows.now }
{
    let mut found = false;
    for f in flows {
        found |= f.priority == priority;
    }
    found
}

// 9, 7, 8 of the flow in the record at `at`, behind these flows.
fn check_clash(at: usize, flow: Flow, earlier: &[Names]) -> Result<Kind, Refusal>
    requires { at + 23 < 2 ^ 64 }
    ensures { result ≡ clash_at at flow (map (λ (f : Names). f.id) earlier.now) (map (λ (f : Names). f.priority) earlier.now) }
{
    if flow.source == flow.destination {
        return Err(Refusal(Fault::EndsEqual, at + 8));
    }
    if has_id(earlier, flow.id) {
        return Err(Refusal(Fault::IdTaken, at + 3));
    }
    if has_priority(earlier, flow.priority) {
        return Err(Refusal(Fault::PriorityTaken, at + 5));
    }
    Ok(Kind::FlowRecord)
}

// 10: a byte after the end record.
fn check_tail(r: Reader) -> Result<Kind, Refusal>
    requires { r.at + 3 ≤ length r.plan.now }
    ensures { result ≡ tail_at r.entry.plan.now r.entry.at }
{
    if r.at + 3 < r.plan.len() {
        return Err(Refusal(Fault::ByteAfterEnd, r.at + 3));
    }
    Ok(Kind::EndRecord)
}

// Behind the fields: 9, 7, 8 of a flow, 10 of the end. A match, since the kinds are a closed list.
pub fn check_rest(r: Reader, kind: Kind, earlier: &[Names]) -> Result<Kind, Refusal>
    requires { r.at + 3 + body_length kind (length_at r.plan.now r.at) ≤ length r.plan.now }
    ensures { result ≡ rest_at r.entry.plan.now r.entry.at kind (map (λ (f : Names). f.id) earlier.now) (map (λ (f : Names). f.priority) earlier.now) }
{
    match kind {
        Kind::PlatformRecord => Ok(kind),
        Kind::FlowRecord => check_clash(r.at, flow_at(r), earlier),
        Kind::EndRecord => check_tail(r),
    }
}
