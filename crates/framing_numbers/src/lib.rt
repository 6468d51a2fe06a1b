// "Numbers are unsigned, most significant byte first."
#![tactic(auto)]

ghost use Rattle.std.specs.Prelude.{ℕ, ◌≡◌, ◌+◌, ◌≤◌, length};
ghost use Rattle.framing_numbers.specs.Numbers.{bytes_of, number_at};
ghost use Rattle.framing_numbers.specs.declared.Width.{Width};

// How many bytes a number has.
#[derive(Clone, Copy, Debug, PartialEq, Eq)]
pub enum Width {
    One,
    Two,
    Four,
}

// A type of numbers, which are read from as many bytes as its width has.
pub trait Number {
    ghost WIDTH: { Width };

    ghost value: { Self → ℕ };

    const WIDTH: Width;

    fn at(s: &[u8], at: usize) -> Self
        requires { at + bytes_of WIDTH ≤ length s.now }
        ensures { value result ≡ number_at s.now WIDTH at };
}

impl Number for u8 {
    ghost WIDTH = { Width.One };

    ghost value = { λ n. n };

    const WIDTH: Width = Width::One;

    fn at(s: &[u8], at: usize) -> u8 {
        u8::from_be_bytes([s[at]])
    }
}

impl Number for u16 {
    ghost WIDTH = { Width.Two };

    ghost value = { λ n. n };

    const WIDTH: Width = Width::Two;

    fn at(s: &[u8], at: usize) -> u16 {
        u16::from_be_bytes([s[at], s[at + 1]])
    }
}

impl Number for u32 {
    ghost WIDTH = { Width.Four };

    ghost value = { λ n. n };

    const WIDTH: Width = Width::Four;

    fn at(s: &[u8], at: usize) -> u32 {
        u32::from_be_bytes([s[at], s[at + 1], s[at + 2], s[at + 3]])
    }
}

// By cases, and no variants with these numbers: a wrong one may give two widths one number.
pub fn bytes_of(width: Width) -> usize
    ensures { result ≡ bytes_of width }
{
    match width {
        Width::One => 1,
        Width::Two => 2,
        Width::Four => 4,
    }
}

// By a value, since a line of the table tells its width: there is no type to choose by.
pub fn number_at(s: &[u8], width: Width, at: usize) -> u32
    requires { at + bytes_of width ≤ length s.now }
    ensures { result ≡ number_at s.now width at }
{
    match width {
        Width::One => u32::from(u8::at(s, at)),
        Width::Two => u32::from(u16::at(s, at)),
        Width::Four => u32::at(s, at),
    }
}
