// The pair table: for every ordered pair of flows the count of shared links and the place of the first.
#![tactic(auto)]

ghost use Rattle.std.specs.Prelude.{◌≡◌, ◌≤◌, length, map, take};
ghost use Rattle.plan.specs.Padded.{padded};
ghost use Rattle.pairs.specs.Scene.{Scene};
ghost use Rattle.pairs.specs.Pairs.{pair_table};
ghost use Rattle.pairs.specs.Spots.{no_spots, spots_in, row_of};

use mesh::Pair;
use mesh::spots::Spots;
use mesh_shared::shared_links;
use plan::Plan;

// Row i, cell j: what the flows i and j of the plan share. Document 01 names this form, a 64 by 64 array by value.
pub type PairRow = [Pair; 64];

pub type PairTable = [PairRow; 64];

// Each flow's rows and columns are worked out once. An array and its plan's count, since there is no heap.
fn all_spots(plan: &Plan) -> [Spots; 64]
    requires { Scene plan.now.platform plan.now.flows plan.now.count }
    ensures { result ≡ padded no_spots (map (spots_in plan.now.platform) (take plan.now.count plan.now.flows)) }
{
    let mut spots = [Spots::default(); 64];
    for (i, f) in plan.flows[..plan.count].iter().enumerate() {
        spots[i] = Spots::of(plan.platform.columns, f.source, f.destination);
    }
    spots
}

// What one flow shares with each.
fn pair_row(own: Spots, spots: &[Spots]) -> PairRow
    requires { length spots.now ≤ 64 }
    ensures { result ≡ row_of spots.now own }
{
    let mut row = [Pair::default(); 64];
    for (j, other) in spots.iter().enumerate() {
        row[j] = shared_links(own, *other);
    }
    row
}

// `Scene` is no invariant of Plan: C hands the writer plans with any values.
pub fn pair_table(plan: &Plan) -> PairTable
    requires { Scene plan.now.platform plan.now.flows plan.now.count }
    ensures { result ≡ pair_table plan.now.platform (take plan.now.count plan.now.flows) }
{
    let all = all_spots(plan);
    let spots = &all[..plan.count];
    let mut table = [[Pair::default(); 64]; 64];
    for (i, own) in spots.iter().enumerate() {
        table[i] = pair_row(*own, spots);
    }
    table
}
