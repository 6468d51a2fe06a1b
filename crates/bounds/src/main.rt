// Reads at most 2,048 bytes of standard input, which always decides the text, and prints it.
#![tactic(auto)]

ghost use Rattle.std.specs.Prelude.{◌≤◌, length, take};
ghost use Rattle.std.specs.Io.KnownBytes.{Consumes};

use std::io;
use std::io::{Read, Write};

// Reads until the buffer is full, the input ends or a read fails, and returns how many bytes it put at the buffer's start.
// No read_to_end: it fills a Vec, and there is no heap.
fn read_full<R: Read>(input: &mut R, buf: &mut [u8]) -> usize
    ensures bound { result ≤ length buf.new }
    ensures bytes { Consumes (R.remaining input.old) (R.remaining input.new) (take result buf.new) }
{
    let mut count = 0;
    for _ in 0..buf.len() {
        if count == buf.len() {
            break;
        }
        match input.read(&mut buf[count..]) {
            Ok(0) => break,
            Ok(n) => count += n,
            Err(_) => break,
        }
    }
    count
}

fn main(rt: HostRuntime) -> io::Result<()> {
    let mut plan = [0u8; 2048];
    let count = read_full(&mut rt.stdin(), &mut plan);
    let text = lines::text_of(&plan[..count]);
    rt.stdout().write_all(text.as_bytes())
}
