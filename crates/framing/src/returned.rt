// What a reading comes to, and what a call returns that reads bytes and writes into a lent buffer.
ghost use Rattle.std.specs.Prelude.{◌≡◌};
ghost use Rattle.framing.specs.Returned.{number_of, returned_of};

// What sends a plan back, or a buffer that is lent for an answer: a line of "What sends a plan back", by its number there.
#[derive(Clone, Copy, Debug, PartialEq, Eq)]
pub enum Fault {
    Cut = 1,
    UnknownTag = 2,
    WrongLength = 3,
    Misplaced = 4,
    FlowTooMany = 6,
    IdTaken = 7,
    PriorityTaken = 8,
    EndsEqual = 9,
    ByteAfterEnd = 10,
    BufferTooShort = 11,
    Columns = 20,
    Rows = 21,
    LinkCycles = 22,
    RoutingCycles = 23,
    BufferFlits = 24,
    Method = 25,
    PriorityFlits = 26,
    Id = 30,
    Priority = 31,
    Source = 32,
    Destination = 33,
    Flits = 34,
    Period = 35,
    DeadlineZero = 36,
    Jitter = 37,
    DeadlineAbovePeriod = 38,
}

// A refusal: what is at fault, and its place.
#[derive(Clone, Copy, Debug, PartialEq, Eq)]
pub struct Refusal(pub Fault, pub usize);

// For C, which has no Result: a refusal's number and place, or 0 and the length of what was written.
#[repr(C)]
#[derive(Clone, Copy, Debug, PartialEq, Eq)]
pub struct Returned {
    pub number: u8,
    pub value: usize,
}

impl From<Fault> for u8 {
    ghost from_gives = { λ fault number. number ≡ number_of fault };

    fn from(fault: Fault) -> u8 {
        fault as u8
    }
}

impl From<Result<usize, Refusal>> for Returned {
    ghost from_gives = { λ answer returned. returned ≡ returned_of answer };

    fn from(answer: Result<usize, Refusal>) -> Returned {
        match answer {
            Ok(value) => Returned { number: 0, value },
            Err(Refusal(fault, place)) => Returned {
                number: u8::from(fault),
                value: place,
            },
        }
    }
}
