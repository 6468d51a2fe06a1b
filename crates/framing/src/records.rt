// Records written one behind the other.
ghost use Rattle.std.specs.Prelude.{ℕ, ◌≡◌, ◌+◌, ◌*◌, ◌≤◌, List, length};
ghost use Rattle.framing.specs.Each.{each};
ghost use Rattle.framing.specs.Put.{put};

// How the record of a thing is laid out, in N bytes.
pub trait Layout<T, const N: usize> {
    ghost made: { T → List ℕ };

    fn record(thing: &T) -> [u8; N]
        ensures { result ≡ made thing.now };
}

// Each thing's record is written into its own part of the buffer, from place `start` on, which is lent on; all else stays.
// Returns the place behind the last.
pub fn put_records<L: Layout<T, N>, T, const N: usize>(
    out: &mut [u8],
    start: usize,
    things: &[T],
) -> usize
    requires { start + N * length things.now ≤ length out.old }
    ensures { (result ≡ start + N * length things.now) × (out.new ≡ put out.old start (each L.made things.now)) }
{
    for (i, thing) in things.iter().enumerate() {
        let at = start + N * i;
        out[at..at + N].copy_from_slice(&L::record(thing));
    }
    start + N * things.len()
}
