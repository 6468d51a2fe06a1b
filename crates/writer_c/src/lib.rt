// The writer's call for C.
#![tactic(auto)]

ghost use Rattle.std.specs.Prelude.{◌≡◌, length};
ghost use Rattle.writer.specs.Written.{listed, returned, left, GivenBack};

use framing::returned::Returned;
use plan::Plan;
use writer::write;

// The plan is passed by value, the buffer as a pointer and a length.
#[unsafe(no_mangle)]
pub extern "C" fn lingfallow_write(plan: Plan, buffer: &mut [u8]) -> Returned
    ensures { (result ≡ returned plan.platform (listed plan.flows plan.count) (length buffer.old)) × (buffer.new ≡ left plan.platform (listed plan.flows plan.count) buffer.old) × GivenBack plan.platform (listed plan.flows plan.count) result buffer.new }
{
    Returned::from(write(plan, buffer))
}
