// The two searches for a flow of highest priority: the next one to be answered, and the one that a flow waits on.
ghost use Rattle.std.specs.Prelude.{◌≡◌, ◌<◌, ltb, is_none, length};
ghost use Rattle.plan.specs.Legal.{flow as flow_at};
ghost use Rattle.engine_terms.specs.Kept.{bound_at};
ghost use Rattle.engine_rows.specs.Search.{Highest, HighestNamed};

use crate::row::Row;
use engine_terms::kept::KeptTable;
use plan_values::{Flow, Flows};

// The place of the flow of highest priority below `last`.
pub fn next_flow(flows: &[Flow], last: u16) -> Option<usize>
    ensures { Highest (λ k. ltb last (flow_at flows.now k).priority) (λ k. (flow_at flows.now k).priority) (length flows.now) result }
{
    flows
        .iter()
        .enumerate()
        .filter(|(_, f)| last < f.priority)
        .min_by_key(|(_, f)| f.priority)
        .map(|(k, _)| k)
}

fn is_unbounded(kept: &KeptTable, j: usize) -> bool
    requires { j < 64 }
    ensures { result ≡ is_none (bound_at kept.now j) }
{
    kept[j].figures.bound.is_none()
}

// Among the direct flows, the place in the plan of the one of highest priority that has no bound.
pub fn waits_on(row: &Row, flows: &Flows, kept: &KeptTable) -> Option<usize>
    ensures { HighestNamed (λ j. is_none (bound_at kept.now j)) (λ j. (flow_at flows.now j).priority) row.now.direct row.now.many result }
{
    row.direct()
        .iter()
        .filter(|j| is_unbounded(kept, usize::from(**j)))
        .min_by_key(|j| flows[usize::from(**j)].priority)
        .map(|j| usize::from(*j))
}
