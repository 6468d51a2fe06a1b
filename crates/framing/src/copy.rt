// Bytes copied into a lent slice at a place of it.
ghost use Rattle.std.specs.Prelude.{◌≡◌, ◌+◌, ◌≤◌, length};
ghost use Rattle.framing.specs.Put.{put};

// Copies `from` into `into` at a place, and returns the place behind the last byte written.
pub fn copy_in(into: &mut [u8], at: usize, from: &[u8]) -> usize
    requires { at + length from.now ≤ length into.old }
    ensures { (result ≡ at + length from.now) × (into.new ≡ put into.old at from.now) }
{
    let end = at + from.len();
    into[at..end].copy_from_slice(from);
    end
}
