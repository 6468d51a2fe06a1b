// The house default has moved from XLWX to IBN: a stored plan that asks for the default is made to ask for XLWX by its number.
#![tactic(auto)]

ghost use Rattle.std.specs.Prelude.{◌≡◌};
ghost use Rattle.framing.specs.Returned.{value_by};
ghost use Rattle.converter.specs.Converted.{returned, converted};

use framing::returned::Refusal;
use plan::read;

// Where a plan's method stands, behind tag, length and five fields: one byte is rewritten in its place.
const METHOD: usize = 8;

// Rewrites method 0 of an accepted plan as 2, where it stands. A refusal leaves the plan's bytes as they were.
#[tactic(auto, using(crate::proofs::Converting::method_inside, crate::proofs::Converting::zero_rewritten, crate::proofs::Converting::other_kept), unfolding(framing::specs::Returned::value_by))]
pub fn convert(plan: &mut [u8]) -> Result<(), Refusal>
    ensures { (value_by result 0 ≡ returned plan.old) × (plan.new ≡ converted plan.old) }
{
    read(plan)?;
    if plan[METHOD] == 0 {
        plan[METHOD] = 2;
    }
    Ok(())
}
