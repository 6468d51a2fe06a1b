// One flow's record.
ghost use Rattle.std.specs.Prelude.{◌≡◌};
ghost use Rattle.model.specs.Verdicts.{verdict_number, named_flow, bound_in, rounds_in};
ghost use Rattle.reply.specs.Records.{verdict_by};
ghost use Rattle.reply.specs.Reply.{record_of};

use framing::records::Layout;
use model::{Answer, Verdict};

// "The named flow is FFFF unless the verdict is 2"
const NO_FLOW: u16 = 0xFFFF;

// The numbers that a verdict is written as: 0 and FFFF for none are document 01's.
#[derive(Clone, Copy, Debug, PartialEq, Eq)]
pub(crate) struct Parts {
    pub(crate) number: u8,
    pub(crate) named: u16,
    pub(crate) bound: u32,
    pub(crate) rounds: u32,
}

impl From<Verdict> for Parts {
    ghost from_gives = { λ v p. (p.number ≡ verdict_number v) × (p.named ≡ named_flow v) × (p.bound ≡ bound_in v) × (p.rounds ≡ rounds_in v) };

    fn from(v: Verdict) -> Parts {
        match v {
            Verdict::Bounded(bound, rounds) => Parts {
                number: 0,
                named: NO_FLOW,
                bound,
                rounds,
            },
            Verdict::Late(rounds) => Parts {
                number: 1,
                named: NO_FLOW,
                bound: 0,
                rounds,
            },
            Verdict::Waits(id) => Parts {
                number: 2,
                named: id,
                bound: 0,
                rounds: 0,
            },
        }
    }
}

// The way back: the verdict that a record's numbers tell.
impl From<Parts> for Verdict {
    ghost from_gives = { λ p v. v ≡ verdict_by p.number p.named p.bound p.rounds };

    #[tactic(auto, using(crate::proofs::Records::verdict_0, crate::proofs::Records::verdict_1, crate::proofs::Records::verdict_2))]
    fn from(p: Parts) -> Verdict {
        match p.number {
            0 => Verdict::Bounded(p.bound, p.rounds),
            1 => Verdict::Late(p.rounds),
            _ => Verdict::Waits(p.named),
        }
    }
}

// The layout of an answer's record.
pub(crate) struct AnswerRecord;

impl Layout<Answer, 16> for AnswerRecord {
    ghost made = { record_of };

    #[tactic(auto, using(framing::proofs::BigEndian::two_of_std, framing::proofs::BigEndian::four_of_std), unfolding(crate::specs::Reply::record_of))]
    fn record(a: &Answer) -> [u8; 16] {
        let p = Parts::from(a.verdict);
        let [id1, id0] = a.id.to_be_bytes();
        let [named1, named0] = p.named.to_be_bytes();
        let [bound3, bound2, bound1, bound0] = p.bound.to_be_bytes();
        let [rounds3, rounds2, rounds1, rounds0] = p.rounds.to_be_bytes();
        [
            0x81, 0, 13, id1, id0, p.number, named1, named0, bound3, bound2, bound1, bound0,
            rounds3, rounds2, rounds1, rounds0,
        ]
    }
}
