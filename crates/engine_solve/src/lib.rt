// A flow's recurrence, from the bounds of its direct flows.
#![tactic(auto)]

pub mod turn;

ghost use Rattle.std.specs.Prelude.{◌≡◌, ◌<◌, map, take};
ghost use Rattle.recurrence.specs.Recurrence.{right_side};
ghost use Rattle.recurrence.specs.Verdicts.{Allowed};
ghost use Rattle.engine_solve.specs.Solving.{term_at, Lawful, Solvable};

use crate::turn::Turn;
use engine_terms::kept::KeptTable;
use engine_terms::loads::sum_loads;
use engine_terms::terms::Way;
use pairs::PairTable;
use recurrence::{Settled, Term, settle};

// Of the direct flow at j for the one at i.
fn term_of(way: Way, i: usize, j: usize, kept: &KeptTable, table: &PairTable) -> Term
    requires { (i < 64) × Lawful way i kept.now table.now j }
    ensures { result ≡ term_at way i kept.now table.now j }
{
    let cap = way.cap(table[i][j].count);
    let first = table[j][i].first;
    let loads = sum_loads(kept, &kept[j], &table[i], &table[j], first, cap);
    way.term(&kept[j].figures, loads)
}

// The terms stand in an array, since there is no heap, and are lent as a slice. What is kept is written to between the calls,
// so that a struct that lends way, table and kept would be made anew for each.
pub fn solve(way: Way, turn: &Turn, kept: &KeptTable, table: &PairTable) -> Settled
    requires { Solvable way turn.now kept.now table.now }
    ensures { Allowed (right_side turn.now.cost (map (term_at way turn.now.place kept.now table.now) (take turn.now.row.many turn.now.row.direct))) turn.now.cost turn.now.limit result }
{
    let mut terms = [Term::default(); 64];
    for (m, j) in turn.row.direct().iter().enumerate() {
        terms[m] = term_of(way, turn.place, usize::from(*j), kept, table);
    }
    settle(turn.cost, turn.limit, &terms[..turn.row.many])
}
