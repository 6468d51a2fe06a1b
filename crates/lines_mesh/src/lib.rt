// The mesh's line: "columns by rows, link cycles, routing cycles, buffer flits, the method really used".
#![tactic(auto)]

ghost use Rattle.std.specs.Prelude.{◌≡◌, ◌+◌, ◌≤◌, ◌++◌, length};
ghost use Rattle.model.specs.Latency.{method_used, method_number};
ghost use Rattle.lines_mesh.specs.Mesh.{mesh_line};

use engine_costs::method::method_used;
use lines_items::{LINE_END, Text};
use plan_values::Platform;

// No Display prints the line: document 01 names constant byte strings, copied into it.
const MESH: &[u8] = b"mesh ";

const BY: &[u8] = b"x";

const LINK: &[u8] = b" link ";

const ROUTE: &[u8] = b" route ";

const BUFFER: &[u8] = b" buffer ";

const METHOD: &[u8] = b" method ";

// The method really used, never 0.
fn method_printed(p: Platform) -> u8
    ensures { result ≡ method_number (method_used p) }
{
    u8::from(method_used(p))
}

pub fn put_mesh<const N: usize>(text: &mut Text<N>, p: Platform)
    requires { length text.old + 110 ≤ N }
    ensures { (text.new ≡ text.old ++ mesh_line p) × (length text.new ≤ length text.old + 96) }
{
    text.push_two(MESH, p.columns.into(), BY, p.rows.into());
    text.push_two(LINK, p.link.into(), ROUTE, p.routing.into());
    text.push_two(BUFFER, p.buffer.into(), METHOD, method_printed(p).into());
    text.push_word(LINE_END);
}
