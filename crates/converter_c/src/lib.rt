// The converter's call for C.
#![tactic(auto)]

ghost use Rattle.std.specs.Prelude.{◌≡◌};
ghost use Rattle.converter.specs.Converted.{returned, converted};

use converter::convert;
use framing::returned::Returned;

// The plan is passed as a pointer and a length.
#[tactic(auto, unfolding(framing::specs::Returned::value_by))]
#[unsafe(no_mangle)]
pub extern "C" fn lingfallow_convert(plan: &mut [u8]) -> Returned
    ensures { (result ≡ returned plan.old) × (plan.new ≡ converted plan.old) }
{
    match convert(plan) {
        Ok(()) => Returned::from(Ok(0)),
        Err(refusal) => Returned::from(Err(refusal)),
    }
}
