// Answers and whole buffers, compared with what is due.
ghost use Rattle.std.specs.Prelude.{◌≡◌, length, get_or};
ghost use Rattle.tape.specs.Answer.{outcome};
ghost use Rattle.listing.specs.Due.{Decides, due, filled, AsDue};
ghost use Rattle.listing.specs.Seen.{Keeps, Judged};

use crate::report;
use crate::report::Seen;
use std::io;
use tape::answer::Answer;

// What is due of a call: the refusal, or with none the count of the bytes; and the whole buffer, which is the bytes and then `rest` to its end.
#[derive(Clone, Copy)]
pub struct Due<'a> {
    pub refusal: Option<u8>,
    pub bytes: &'a [u8],
    pub rest: u8,
}

// The answer is the refusal, or, where there is none, the count.
pub fn answers(a: Answer, refusal: Option<u8>, count: usize) -> bool
    ensures { Decides result (outcome a ≡ due refusal count) }
{
    match a {
        Answer::Count(n) => refusal.is_none() && n == count,
        Answer::End => false,
        refused => refusal == Some(tape::answer::number(refused)),
    }
}

// The byte that is due at a place.
fn due_at(bytes: &[u8], i: usize, rest: u8) -> u8
    ensures { result ≡ get_or bytes.now i rest }
{
    bytes.get(i).copied().unwrap_or(rest)
}

// The buffer is the bytes, or as many of them as it has room for, and then `rest` to its end.
pub fn holds(out: &[u8], bytes: &[u8], rest: u8) -> bool
    ensures { Decides result (out.now ≡ filled (length out.now) bytes.now rest) }
{
    for (i, b) in out.iter().enumerate() {
        if *b != due_at(bytes, i, rest) {
            return false;
        }
    }
    true
}

// Compares what a call answered, and its whole buffer, with what is due, and reports a difference.
pub fn judge(
    rt: &impl Print,
    what: u8,
    a: Answer,
    due: Due,
    out: &[u8],
    seen: &mut Seen,
) -> io::Result<()>
    ensures judged { Judged (AsDue (outcome a) out.now due.entry.refusal due.entry.bytes.now due.entry.rest) seen.old seen.new }
    ensures keeps { Keeps seen.old seen.new }
{
    if answers(a, due.refusal, due.bytes.len()) && holds(out, due.bytes, due.rest) {
        return Ok(());
    }
    report::differs(rt, what, due, a, out, seen)
}
