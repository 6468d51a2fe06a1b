// One flow's recurrence, solved (document 01, "The three recurrences", "Verdicts and rounds").
#![tactic(auto)]

mod terms;

ghost use Rattle.std.specs.Prelude.{◌≡◌, ◌≤◌, ◌<◌, ◌^◌};
ghost use Rattle.recurrence.specs.Sums.{sum_over};
ghost use Rattle.recurrence.specs.Recurrence.{right_side, delay};
ghost use Rattle.recurrence.specs.Limits.{Given, AllFair};
ghost use Rattle.recurrence.specs.Verdicts.{Allowed};

pub use terms::{Arrivals, Term};

// What comes of a recurrence: the bound and the rounds, or the rounds of a flow that is late.
// An enum of the verdict's own words: an Option of a bound beside the rounds is no plainer, since the theorems tell the two answers apart by these words.
#[derive(Clone, Copy, Debug, PartialEq, Eq)]
pub enum Settled {
    Bounded(u32, u32),
    Late(u32),
}

// "sum over direct j of n_j(x) x W_j". The window is a number of each call, and no field of a type.
#[tactic(auto, unfolding(crate::specs::Sums::sum_over))]
fn delays(terms: &[Term], x: u32) -> u64
    requires fair { AllFair terms.now }
    requires window { x ≤ 1_000_000_000 }
    requires fits { sum_over terms.now (λ t. delay t x) < 2 ^ 64 }
    ensures { result ≡ sum_over terms.now (λ t. delay t x) }
{
    terms.iter().map(|t| t.delay(x)).sum()
}

// Replaces x by the right side, from c on, until it stays as it is or passes the limit. How many rounds there are is an answer, and no range beforehand.
pub fn settle(c: u32, limit: u32, terms: &[Term]) -> Settled
    requires { Given c limit terms.now }
    ensures { Allowed (right_side c terms.now) c limit result }
{
    if limit < c {
        return Settled::Late(0);
    }
    let mut x = c;
    let mut rounds: u32 = 0;
    loop {
        let new = u64::from(c) + delays(terms, x);
        rounds += 1;
        if new == u64::from(x) {
            return Settled::Bounded(x, rounds);
        }
        if u64::from(limit) < new {
            return Settled::Late(rounds);
        }
        // Not above the limit, so that nothing is lost: try_from would have a refusal that cannot come.
        x = new as u32;
    }
}
