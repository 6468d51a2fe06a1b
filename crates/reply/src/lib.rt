// The reply's bytes (document 01, "The reply").
#![tactic(auto)]

ghost use Rattle.std.specs.Prelude.{◌≡◌, ◌++◌, ◌+◌, ◌*◌, ◌≤◌, length, drop};
ghost use Rattle.reply.specs.Records.{answer_at};
ghost use Rattle.reply.specs.Reply.{reply_bytes};

use crate::record::{AnswerRecord, Parts};
use framing::header::put_end;
use framing::records::put_records;
use framing_numbers::Number;
use model::Answer;

mod record;

// Each record is written at its own distance into the reply, into a part of it that is lent on; further bytes stay.
pub fn put_reply(reply: &mut [u8], answers: &[Answer])
    requires { 16 * length answers.now + 3 ≤ length reply.old }
    ensures { reply.new ≡ reply_bytes answers.now ++ drop (16 * length answers.now + 3) reply.old }
{
    let end = put_records::<AnswerRecord, Answer, 16>(reply, 0, answers);
    put_end(&mut reply[end..end + 3]);
}

// The answer that stands in record k of a reply.
pub fn answer_at(reply: &[u8], k: usize) -> Answer
    requires { 16 * k + 16 ≤ length reply.now }
    ensures { result ≡ answer_at reply.now k }
{
    let at = 16 * k;
    let parts = Parts {
        number: u8::at(reply, at + 5),
        named: u16::at(reply, at + 6),
        bound: u32::at(reply, at + 8),
        rounds: u32::at(reply, at + 12),
    };
    Answer {
        id: u16::at(reply, at + 3),
        verdict: parts.into(),
    }
}
