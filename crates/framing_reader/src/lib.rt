// "In the reader, the reading place travels together with the bytes being read."
#![tactic(auto)]

ghost use Rattle.std.specs.Prelude.{◌≡◌, ◌+◌, ◌≤◌, length};
ghost use Rattle.framing_numbers.specs.Numbers.{bytes_of, number_at};
ghost use Rattle.framing_reader.specs.Reader.{reader_at, moved_past};

use framing_numbers::{Number, bytes_of};

// The plan's bytes and the reading place in them.
#[derive(Clone, Copy, Debug, PartialEq, Eq)]
pub struct Reader<'a> {
    pub plan: &'a [u8],
    pub at: usize,
}

// What `number`, `past` and `take` ask of the place is no invariant: a reader may start at any place, and each asks for as many bytes as it reads.
impl<'a> Reader<'a> {
    pub fn new(plan: &'a [u8], at: usize) -> Reader<'a>
        ensures { result ≡ reader_at plan.entry at }
    {
        Reader { plan, at }
    }

    // The number at the reading place.
    pub fn number<N: Number>(self) -> N
        requires { self.at + bytes_of N.WIDTH ≤ length self.plan.now }
        ensures { N.value result ≡ number_at self.entry.plan.now N.WIDTH self.entry.at }
    {
        N::at(self.plan, self.at)
    }

    // The same bytes, read on from behind some of them.
    pub fn past(self, count: usize) -> Reader<'a>
        requires { self.at + count ≤ length self.plan.now }
        ensures { result ≡ moved_past self.entry count }
    {
        Reader {
            at: self.at + count,
            ..self
        }
    }

    // The number at the reading place, which moves on behind it.
    pub fn take<N: Number>(&mut self) -> N
        requires { self.old.at + bytes_of N.WIDTH ≤ length self.old.plan.now }
        ensures number { N.value result ≡ number_at self.old.plan.now N.WIDTH self.old.at }
        ensures moved { self.new ≡ moved_past self.old (bytes_of N.WIDTH) }
    {
        let taken = self.number();
        *self = self.past(bytes_of(N::WIDTH));
        taken
    }
}
