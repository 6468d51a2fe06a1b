// A flow's direct flows, found.
ghost use Rattle.std.specs.Prelude.{◌≡◌, ◌≤◌, length};
ghost use Rattle.engine_terms.specs.Loads.{direct_by};
ghost use Rattle.engine_rows.specs.Rows.{Rowed};

use crate::row::Row;
use pairs::PairRow;
use plan_values::Flow;

fn is_direct(own: u16, theirs: u16, shared: u8) -> bool
    ensures { result ≡ direct_by own theirs shared }
{
    theirs < own && 0 < shared
}

// From a flow's row of the pair table and its priority.
pub fn row_of(pairs: &PairRow, flows: &[Flow], own: u16) -> Row
    requires { length flows.now ≤ 64 }
    ensures { Rowed pairs.now flows.now own result }
{
    let mut direct = [0; 64];
    let mut many = 0;
    for (k, flow) in flows.iter().enumerate() {
        if is_direct(own, flow.priority, pairs[k].count) {
            direct[many] = k as u8; // below 64: try_from would have a refusal that cannot come
            many += 1;
        }
    }
    Row { direct, many }
}
