// Prints, for some small meshes, a digest of the shared links of every ordered pair of routes.
#![tactic(auto)]

ghost use Rattle.std.specs.Prelude.{◌*◌, ◌<◌, ◌≤◌};

use mesh::Pair;
use mesh::spots::Spots;
use mesh_shared::shared_links;
use std::{fmt, io};

// A mesh of so many columns and rows.
#[derive(Clone, Copy, Debug, PartialEq, Eq)]
struct Grid {
    columns: u8,
    rows: u8,
    ghost sizes: { (1 ≤ columns) × (columns ≤ 8) × (1 ≤ rows) × (rows ≤ 8) },
}

impl Grid {
    // The routes from one node, to each other one in its turn.
    fn each_from<F: FnMut(Spots)>(self, source: u8, f: &mut F)
        requires { (source < self.columns * self.rows) × F.IsAlwaysCallable f.old }
        ensures { F.IsAlwaysCallable f.new }
    {
        for destination in 0..self.columns * self.rows {
            if source != destination {
                f(Spots::of(self.columns, source, destination));
            }
        }
    }

    // Every route in its turn.
    fn each_route<F: FnMut(Spots)>(self, mut f: F)
        requires { F.IsAlwaysCallable f }
    {
        for source in 0..self.columns * self.rows {
            self.each_from(source, &mut f);
        }
    }
}

// How many pairs there are, the sums of their counts and of their first places, and a number that depends on each in its turn.
#[derive(Clone, Copy, Debug, PartialEq, Eq)]
struct Digest {
    pairs: u64,
    counts: u64,
    places: u64,
    hash: u64,
    ghost small: { hash < 4294967291 },
}

impl Digest {
    fn new() -> Self {
        Digest {
            pairs: 0,
            counts: 0,
            places: 0,
            hash: 0,
        }
    }

    // The digest with one pair more.
    fn with(self, pair: Pair) -> Self {
        let count = u64::from(pair.count);
        let first = u64::from(pair.first);
        Digest {
            pairs: self.pairs.wrapping_add(1),
            counts: self.counts.wrapping_add(count),
            places: self.places.wrapping_add(first),
            hash: (self.hash * 289 + count * 17 + first) % 4294967291,
        }
    }

    // The digest of all ordered pairs of routes.
    fn of(grid: Grid) -> Self {
        let mut d = Digest::new();
        grid.each_route(|a| grid.each_route(|b| d = d.with(shared_links(a, b))));
        d
    }
}

impl fmt::Display for Digest {
    fn fmt<W: fmt::Write>(&self, f: &mut fmt::Formatter<W>) -> fmt::Result {
        write!(
            f,
            "pairs {} counts {} places {} hash {}",
            self.pairs, self.counts, self.places, self.hash
        )
    }
}

// Prints the digest of a mesh.
fn print(rt: &impl Print, columns: u8, rows: u8) -> io::Result<()>
    requires { (1 ≤ columns) × (columns ≤ 8) × (1 ≤ rows) × (rows ≤ 8) }
{
    let digest = Digest::of(Grid { columns, rows });
    println!(rt; "{columns} by {rows} {digest}")
}

fn main(rt: HostRuntime) -> io::Result<()> {
    print(&rt, 3, 4)?;
    print(&rt, 6, 1)?;
    print(&rt, 1, 6)?;
    print(&rt, 2, 2)
}
