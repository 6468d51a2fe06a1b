// "Method 1 is SB, 2 is XLWX, 3 is IBN .. 0 asks for the house default"
ghost use Rattle.std.specs.Prelude.{◌≡◌};
ghost use Rattle.model.specs.Latency.{house_default, method_used};

use model::Method;
use plan_values::Platform;

// A function and no constant: its contract ties it to the definition.
fn house_default() -> Method
    ensures { result ≡ house_default }
{
    Method::IBN
}

// What a method's number means.
pub fn method_used(p: Platform) -> Method
    ensures { result ≡ method_used p }
{
    Method::try_from(p.method).unwrap_or(house_default())
}
