// "Every record is a one-byte tag, a two-byte body length and a body."
ghost use Rattle.std.specs.Prelude.{◌≡◌, ◌+◌, ◌≤◌, length};
ghost use Rattle.framing.specs.Header.{tag_at, length_at, is_header_cut, is_body_cut, end_record};

use framing_reader::Reader;

// Whether under 3 bytes remain where a record must start; of a place behind the end none do.
pub fn header_cut(r: Reader) -> bool
    ensures { result ≡ is_header_cut r.entry.plan.now r.entry.at }
{
    r.plan.len().saturating_sub(r.at) < 3
}

pub fn tag_at(r: Reader) -> u8
    requires { r.at + 3 ≤ length r.plan.now }
    ensures { result ≡ tag_at r.entry.plan.now r.entry.at }
{
    r.number()
}

pub fn length_at(r: Reader) -> u16
    requires { r.at + 3 ≤ length r.plan.now }
    ensures { result ≡ length_at r.entry.plan.now r.entry.at }
{
    r.past(1).number()
}

pub fn body_cut(r: Reader) -> bool
    requires { r.at + 3 ≤ length r.plan.now }
    ensures { result ≡ is_body_cut r.entry.plan.now r.entry.at }
{
    r.plan.len() - (r.at + 3) < usize::from(length_at(r))
}

const END: [u8; 3] = [0x7F, 0, 0];

// The end record of a plan, and of a reply.
pub fn put_end(out: &mut [u8])
    requires { length out.old ≡ 3 }
    ensures { out.new ≡ end_record }
{
    out.copy_from_slice(&END);
}
