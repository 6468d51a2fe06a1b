// The links that two routes share, from the rows and columns of their ends: no route is listed.
#![tactic(auto)]

ghost use Rattle.mesh.specs.Shared.{Shares};
ghost use Rattle.mesh.specs.Halves.{to_turn, from_turn, between};

use mesh::Pair;
use mesh::spots::Spots;
use mesh_stretches::{joined, shared_hops, shared_link};

// Up to the turn: the injection links, then the hops along the rows. They are shared in one row alone.
// No twin of `shared_from_turn`: there the one link stands behind the hops, and rows and columns change places.
fn shared_to_turn(a: Spots, b: Spots) -> Pair
    ensures { Shares (to_turn a) (to_turn b) result.count result.first }
{
    if a.source.row == b.source.row {
        let injection = shared_link(a.source.column == b.source.column);
        let hops = shared_hops(
            a.source.column,
            a.destination.column,
            b.source.column,
            b.destination.column,
        );
        joined(1, injection, hops)
    } else {
        Pair::default()
    }
}

// From the turn on: the hops along the columns, then the ejection links. They are shared in one column alone.
fn shared_from_turn(a: Spots, b: Spots) -> Pair
    ensures { Shares (from_turn a) (from_turn b) result.count result.first }
{
    if a.destination.column == b.destination.column {
        let hops = shared_hops(
            a.source.row,
            a.destination.row,
            b.source.row,
            b.destination.row,
        );
        let ejection = shared_link(a.destination.row == b.destination.row);
        joined(a.destination.row.abs_diff(a.source.row), hops, ejection)
    } else {
        Pair::default()
    }
}

// The whole routes: what is shared up to the turn, and behind it what is shared from there on.
pub fn shared_links(a: Spots, b: Spots) -> Pair
    ensures { Shares (between a) (between b) result.count result.first }
{
    // Most flows cannot meet: neither along a row nor along a column.
    if a.source.row != b.source.row && a.destination.column != b.destination.column {
        return Pair::default();
    }
    let turn = 1 + a.destination.column.abs_diff(a.source.column);
    joined(turn, shared_to_turn(a, b), shared_from_turn(a, b))
}
