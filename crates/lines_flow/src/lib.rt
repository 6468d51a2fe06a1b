// A flow's line and a refusal's.
#![tactic(auto)]

ghost use Rattle.std.specs.Prelude.{◌≡◌, ◌+◌, ◌≤◌, ◌++◌, length};
ghost use Rattle.framing.specs.Returned.{number_of};
ghost use Rattle.lines_flow.specs.Flows.{told, flow_line, refusal_line};

use framing::returned::Refusal;
use lines_items::{LINE_END, Text};
use model::{Answer, Verdict};

// No Display prints the lines: document 01 names constant byte strings, copied into the line.
const BOUNDED: &[u8] = b" bounded ";

const LATE: &[u8] = b" late";

const WAITS: &[u8] = b" waits ";

const ROUNDS: &[u8] = b" rounds ";

const REFUSED: &[u8] = b"refused ";

const AT: &[u8] = b" at ";

#[tactic(auto, using(lines_items::proofs::Chain::chain), unfolding(crate::specs::Flows::told))]
// A match: the three verdicts are a closed list.
fn put_verdict<const N: usize>(text: &mut Text<N>, v: Verdict)
    requires { length text.old + 50 ≤ N }
    ensures { (text.new ≡ text.old ++ told v) × (length text.new ≤ length text.old + 37) }
{
    match v {
        Verdict::Bounded(bound, rounds) => text.push_two(BOUNDED, bound, ROUNDS, rounds),
        Verdict::Late(rounds) => {
            text.push_word(LATE);
            text.push_item(ROUNDS, rounds);
        }
        Verdict::Waits(id) => text.push_item(WAITS, id.into()),
    }
}

pub fn put_flow<const N: usize>(text: &mut Text<N>, a: Answer)
    requires { length text.old + 80 ≤ N }
    ensures { (text.new ≡ text.old ++ flow_line a) × (length text.new ≤ length text.old + 48) }
{
    text.push_number(a.id.into());
    put_verdict(text, a.verdict);
    text.push_word(LINE_END);
}

// A place may be beyond four bytes.
pub fn put_refusal<const N: usize>(text: &mut Text<N>, refusal: Refusal)
    requires { length text.old + 80 ≤ N }
    ensures { (text.new ≡ text.old ++ refusal_line (number_of refusal.0) refusal.1) × (length text.new ≤ length text.old + 43) }
{
    let Refusal(fault, place) = refusal;
    let number = u8::from(fault);
    text.push_item(REFUSED, number.into());
    text.push_word(AT);
    text.push_number(place as u64); // there is no From: a usize may be wider elsewhere
    text.push_word(LINE_END);
}
