// The plan reader: from any bytes to a plan by value, or a refusal: what is at fault, and its place.
#![tactic(auto)]

ghost use Rattle.std.specs.Prelude.{◌≡◌};
ghost use Rattle.plan.specs.Reading.{read_plan};

use framing::header::length_at;
use framing::returned::Refusal;
use framing_numbers::{bytes_of, number_at};
use framing_reader::Reader;
use plan_checks::{Names, check_frame, check_rest, is_outside, limits_at, refusal_of};
use plan_table::{Field, Kind, fields_of};
use plan_values::{Flows, Platform, blank_flow, blank_platform, flow_at, platform_at};

// For C: the flows are the first `count`; blanks, whose priority no flow has, stand behind them.
#[repr(C)]
#[derive(Clone, Copy, Debug, PartialEq, Eq)]
pub struct Plan {
    pub platform: Platform,
    pub flows: Flows,
    pub count: usize,
}

// The plan that the bytes hold, or the first fault and its place.
// Document 01 names this form, a record loop with a field scan inside, left by label: place and offset are no indices of a range.
pub fn read(bytes: &[u8]) -> Result<Plan, Refusal>
    ensures { result ≡ read_plan bytes.now }
{
    let mut at: usize = 0;
    let mut platform = blank_platform();
    let mut flows = [blank_flow(); 64];
    let mut names = [Names::default(); 64];
    let mut count: usize = 0;
    'records: loop {
        let r = Reader::new(bytes, at);
        let kind = check_frame(r, count)?;
        let limits = limits_at(r, kind, platform);
        let mut offset: usize = 3;
        for &field in fields_of(kind, length_at(r)) {
            let Field(width, _, _, _) = field;
            let value = number_at(bytes, width, at + offset);
            if is_outside(limits, field, value) {
                break 'records Err(Refusal(refusal_of(field, value), at + offset));
            }
            offset += bytes_of(width);
        }
        check_rest(r, kind, &names[..count])?;
        match kind {
            Kind::PlatformRecord => platform = platform_at(r),
            Kind::FlowRecord => {
                let flow = flow_at(r);
                flows[count] = flow;
                names[count] = Names {
                    id: flow.id,
                    priority: flow.priority,
                };
                count += 1;
            }
            Kind::EndRecord => {
                break 'records Ok(Plan {
                    platform,
                    flows,
                    count,
                });
            }
        }
        at += offset;
    }
}
