// A plan's bytes, written into a lent buffer.
#![tactic(auto)]

ghost use Rattle.std.specs.Prelude.{◌≡◌, ◌++◌, ◌≤◌, length, take, drop};
ghost use Rattle.writer_bytes.specs.PlanBytes.{plan_bytes, plan_length};

use crate::records::{FlowRecord, platform_bytes, platform_size};
use framing::copy::copy_in;
use framing::header::put_end;
use framing::records::put_records;
use plan_values::{Flow, Platform};

mod records;

// How many bytes the plan of so many flows has.
pub fn plan_length(platform: Platform, count: usize) -> usize
    requires { count ≤ 64 }
    ensures { (result ≡ plan_length platform count) × (result ≤ 1485) }
{
    platform_size(platform) + 23 * count + 3
}

// Each record is written into its own part of the buffer, which is lent on; further bytes stay.
pub fn put_plan(out: &mut [u8], platform: Platform, flows: &[Flow])
    requires { plan_length platform (length flows.now) ≤ length out.old }
    ensures { out.new ≡ plan_bytes platform flows.now ++ drop (plan_length platform (length flows.now)) out.old }
{
    let first = platform_bytes(platform);
    let start = copy_in(out, 0, &first[..platform_size(platform)]);
    let end = put_records::<FlowRecord, Flow, 23>(out, start, flows);
    put_end(&mut out[end..end + 3]);
}
