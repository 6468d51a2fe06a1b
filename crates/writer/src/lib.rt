// The plan writer for the depot tool: from a plan by value to its bytes in a lent buffer.
#![tactic(auto)]

ghost use Rattle.std.specs.Prelude.{◌≡◌, length};
ghost use Rattle.framing.specs.Returned.{returned_of};
ghost use Rattle.writer.specs.Written.{listed, returned, left, GivenBack};

use framing::returned::{Fault, Refusal};
use plan::{Plan, read};
use writer_bytes::{plan_length, put_plan};

// Writes the plan of the first `count` flows if the reader accepts its bytes and the buffer has room for them, and returns how many
// they are: they are written into a buffer of our own first, and read there. A refusal leaves the lent buffer as it was.
// The plan by value: its type tells that each number fits its field, which a proof does not see behind a reference.
pub fn write(plan: Plan, buffer: &mut [u8]) -> Result<usize, Refusal>
    ensures { let p = plan.platform in let fs = listed plan.flows plan.count in (returned_of result ≡ returned p fs (length buffer.old)) × (buffer.new ≡ left p fs buffer.old) × GivenBack p fs (returned_of result) buffer.new }
{
    let kept = plan.count.min(64);
    let size = plan_length(plan.platform, kept);
    let mut trial = [0; 1485];
    put_plan(&mut trial, plan.platform, &plan.flows[..kept]);
    read(&trial[..size])?;
    if 64 < plan.count {
        return Err(Refusal(Fault::FlowTooMany, size - 3));
    }
    if buffer.len() < size {
        return Err(Refusal(Fault::BufferTooShort, 0));
    }
    put_plan(buffer, plan.platform, &plan.flows[..kept]);
    Ok(size)
}
