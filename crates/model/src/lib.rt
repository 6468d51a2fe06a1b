// What document 01 says of a plan's flows: its words as types, as definitions (specs/) and as theorems (proofs/). The engine
// computes it.
#![tactic(auto)]

ghost use Rattle.std.specs.Prelude.{◌≡◌};
ghost use Rattle.model.specs.Latency.{method_number};
ghost use Rattle.model.specs.Numbered.{Numbered};
ghost use Rattle.model.specs.Verdicts.{settled_verdict};
ghost use Rattle.model.specs.Bounds.{bound_of};

use recurrence::Settled;

// "Method 1 is SB, 2 is XLWX, 3 is IBN"
#[derive(Clone, Copy, Debug, PartialEq, Eq)]
pub enum Method {
    SB = 1,
    XLWX = 2,
    IBN = 3,
}

// A number that no method has.
#[derive(Clone, Copy, Debug, PartialEq, Eq)]
pub struct UnknownMethod(pub u8);

impl TryFrom<u8> for Method {
    type Error = UnknownMethod;

    ghost try_from_gives = { Numbered };

    fn try_from(number: u8) -> Result<Self, UnknownMethod> {
        match number {
            1 => Ok(Method::SB),
            2 => Ok(Method::XLWX),
            3 => Ok(Method::IBN),
            _ => Err(UnknownMethod(number)),
        }
    }
}

impl From<Method> for u8 {
    ghost from_gives = { λ method number. number ≡ method_number method };

    fn from(method: Method) -> u8 {
        method as u8
    }
}

// "Each flow's line in the answer holds one of three verdicts": the bound and the rounds, the rounds, or the id of the flow waited on.
#[derive(Clone, Copy, Debug, PartialEq, Eq)]
pub enum Verdict {
    Bounded(u32, u32),
    Late(u32),
    Waits(u16),
}

impl Verdict {
    pub fn bound(self) -> Option<u32>
        ensures { result ≡ bound_of self }
    {
        match self {
            Verdict::Bounded(r, _) => Some(r),
            _ => None,
        }
    }
}

impl From<Settled> for Verdict {
    ghost from_gives = { λ settled verdict. verdict ≡ settled_verdict settled };

    fn from(settled: Settled) -> Self {
        match settled {
            Settled::Bounded(r, k) => Verdict::Bounded(r, k),
            Settled::Late(k) => Verdict::Late(k),
        }
    }
}

// One flow's line in the answer.
#[derive(Clone, Copy, Debug, PartialEq, Eq)]
pub struct Answer {
    pub id: u16,
    pub verdict: Verdict,
}

// The answers in plan order, an array of structs, as document 01 names it; blanks stand behind them.
pub type Answers = [Answer; 64];
