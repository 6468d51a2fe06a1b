// From any bytes to a reply: the entry points.
#![tactic(auto)]

ghost use Rattle.std.specs.Prelude.{◌≡◌, length};
ghost use Rattle.framing.specs.Returned.{returned_of};
ghost use Rattle.analyser.specs.Analysed.{returned, left};

use engine::analyse_plan;
use framing::returned::{Fault, Refusal};
use plan::read;
use reply::put_reply;

// Analyses the plan that the bytes hold, and writes the reply, whose length it returns. A refusal leaves the reply's bytes as they were.
pub fn analyse(bytes: &[u8], reply: &mut [u8]) -> Result<usize, Refusal>
    ensures { (returned_of result ≡ returned bytes.now (length reply.old)) × (reply.new ≡ left bytes.now reply.old) }
{
    let plan = read(bytes)?;
    let size = 16 * plan.count + 3;
    if reply.len() < size {
        return Err(Refusal(Fault::BufferTooShort, 0));
    }
    let answers = analyse_plan(plan);
    put_reply(reply, &answers[..plan.count]);
    Ok(size)
}
