// The text that `bounds` prints (document 01, "The program `bounds`").
#![tactic(auto)]

ghost use Rattle.std.specs.Prelude.{◌≡◌, ◌+◌, ◌*◌, ◌≤◌, ◌++◌, length};
ghost use Rattle.lines.specs.Lines.{text_of};
ghost use Rattle.lines.specs.Replied.{record_lines};

use analyser::analyse;
use framing_reader::Reader;
use lines_flow::{put_flow, put_refusal};
use lines_mesh::put_mesh;
use plan_values::platform_at;
use reply::answer_at;

// There is room for 64 flows.
pub type Text = lines_items::Text<3200>;

// A line for each of the first records of a reply, which are bytes: each is read by its number.
#[tactic(auto, using(crate::proofs::Listing::listing_none, crate::proofs::Listing::listing_more))]
fn put_flows(text: &mut Text, reply: &[u8], count: usize)
    requires { (length text.old + 48 * count + 32 ≤ 3200) × (16 * count ≤ length reply.now) }
    ensures { (text.new ≡ text.old ++ record_lines reply.now count) × (length text.new ≤ length text.old + 48 * count) }
{
    for k in 0..count {
        put_flow(text, answer_at(reply, k));
    }
}

// What is printed for any bytes: a line for the mesh and one for each flow, or the refusal's alone.
// A reply of 1,027 bytes has room for 64 flows; the mesh's values stand in the plan, not in the reply.
pub fn text_of(bytes: &[u8]) -> Text
    ensures { (result ≡ text_of bytes.now) × (length result ≤ 3200) }
{
    let mut text = Text::new();
    let mut reply = [0u8; 1027];
    let size = match analyse(bytes, &mut reply) {
        Ok(size) => size,
        Err(refusal) => {
            put_refusal(&mut text, refusal);
            return text;
        }
    };
    put_mesh(&mut text, platform_at(Reader::new(bytes, 0)));
    let count = (size - 3) / 16;
    put_flows(&mut text, &reply, count);
    text
}
