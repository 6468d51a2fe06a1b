// The hits on a flow whose bound is known: they depend on no third flow, so they are worked out once.
ghost use Rattle.std.specs.Prelude.{ℕ, ◌+◌, ◌≤◌, ◌<◌, get_or, length};
ghost use Rattle.recurrence.specs.Rounding.{up};
ghost use Rattle.engine_terms.specs.Kept.{arrivals_at};
ghost use Rattle.engine_rows.specs.Places.{Dealt};

use engine_terms::kept::KeptTable;

// By place in the plan, since a third flow is looked up by its place: of the flows that are named, and 0 of the others.
pub fn hit_row(named: &[u8], kept: &KeptTable, bound: u32) -> [u32; 64]
    requires { (m : ℕ) → m < length named.now → (get_or named.now m 0 < 64) × (bound + (arrivals_at kept.now (get_or named.now m 0)).shift + (arrivals_at kept.now (get_or named.now m 0)).period ≤ 4_294_967_295) }
    ensures { Dealt (λ k. up (bound + (arrivals_at kept.now k).shift) (arrivals_at kept.now k).period) named.now (length named.now) result }
{
    let mut hits = [0; 64];
    for k in named {
        let k = usize::from(*k);
        hits[k] = kept[k].figures.arrivals.packets(bound);
    }
    hits
}
