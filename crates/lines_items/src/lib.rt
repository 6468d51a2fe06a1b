// The text of the lines and what it is made of: fixed words, and "Numbers are decimal", alone or behind a word.
#![tactic(auto)]

ghost use Rattle.std.specs.Prelude.{◌≡◌, ◌+◌, ◌≤◌, List, [], ◌++◌, length};
ghost use Rattle.lines_items.specs.Decimal.{decimal};
ghost use Rattle.lines_items.specs.Items.{item};

use std::marker::Model;

// "lines ended by LF"
pub const LINE_END: &[u8] = b"\n";

// A text of at most N bytes, without a heap; zeros stand behind them. No ArrayVec of the kit: its model forgets what stands behind,
// and of the text that `bounds` prints the zeros are promised.
#[derive(Clone, Copy, Debug, PartialEq, Eq)]
pub struct Text<const N: usize> {
    bytes: [u8; N],
    length: usize,
}

// A clause sees the text's bytes alone. The zeros are not forgotten: a text gives its fields back.
impl<const N: usize> Model for Text<N> {
    ghost use Rattle.std.specs.Prelude.{ℕ, List, ◌≡◌, ◌≤◌, take};

    ghost Value = { List ℕ };

    ghost use Rattle.lines_items.specs.Handed.{handed};

    ghost view = { λ t. take t.length t.bytes };

    ghost invariant = { λ t. (t.length ≤ N) × (handed N (take t.length t.bytes) ≡ t) };

    ghost inverse = { handed N };

    ghost inverse_ok = { λ t h. h.1 };
}

impl<const N: usize> Text<N> {
    pub fn new() -> Self
        ensures { result ≡ [] }
    {
        Text {
            bytes: [0; N],
            length: 0,
        }
    }

    pub fn as_bytes(&self) -> &[u8]
        ensures { (result.now ≡ self.now) × (length result.now ≤ N) }
    {
        &self.bytes[..self.length]
    }

    pub fn push_word(&mut self, word: &[u8])
        requires { length self.old + length word.now ≤ N }
        ensures { self.new ≡ self.old ++ word.now }
    {
        let end = self.length + word.len();
        let bytes = &mut self.bytes[..];
        bytes[self.length..end].copy_from_slice(word);
        self.length = end;
    }

    // A number of eight bytes has at most twenty digits, by `io::decimal`: document 01 names bytes copied into the line.
    pub fn push_number(&mut self, n: u64)
        requires { length self.old + 20 ≤ N }
        ensures { (self.new ≡ self.old ++ decimal n) × (length self.new ≤ length self.old + 20) }
    {
        let mut digits = [0u8; 20];
        let count = io::decimal(n, &mut digits);
        self.push_word(&digits[..count]);
    }

    // One of four bytes has at most ten.
    pub fn push_item(&mut self, word: &[u8], n: u32)
        requires { length self.old + length word.now + 20 ≤ N }
        ensures { (self.new ≡ self.old ++ item word.now n) × (length self.new ≤ length self.old + length word.now + 10) }
    {
        self.push_word(word);
        self.push_number(u64::from(n));
    }

    // Two items, so that a line asks for its room once.
    #[tactic(auto, using(crate::proofs::Chain::chain))]
    pub fn push_two(&mut self, first: &[u8], n: u32, second: &[u8], m: u32)
        requires { length self.old + length first.now + length second.now + 30 ≤ N }
        ensures { (self.new ≡ self.old ++ (item first.now n ++ item second.now m)) × (length self.new ≤ length self.old + length first.now + length second.now + 20) }
    {
        self.push_item(first, n);
        self.push_item(second, m);
    }
}
