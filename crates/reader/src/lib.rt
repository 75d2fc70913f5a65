// The reader: a text's meaning, laid as a tape. A value leads into a sequence and a sequence back into values; the tape is written as the
// text is read. A position stops at a limit above every buffer, so a tape that is too long is measured without a sum that wraps.
#![tactic(auto)]

pub mod blanks;
pub mod heads;
pub mod nodes;
pub mod scalars;
pub mod values;

ghost use Rattle.std.specs.Prelude.{◌≡◌, min, length};
ghost use Rattle.tokens.specs.Quoted.{raw_rule};
ghost use Rattle.tape.specs.Answer.{outcome};
ghost use Rattle.reader.specs.Outcome.{answer, leaves};
ghost use Rattle.reader.specs.Steps.{ReadTape};

use tape::Frame;
use tape::answer::Answer;

// The length of a whole tape, and the number of its top-level nodes.
#[derive(Clone, Copy)]
pub struct Made {
    pub length: usize,
    pub count: usize,
}

// Reads a whole text, by 01's raw rule if `old`, and writes its tape at the buffer's start: the nodes, their length and their number.
pub fn write_tape(text: &[u8], old: bool, buf: &mut [u8]) -> Option<Made>
    ensures { ReadTape (raw_rule old) text.now buf.old buf.new result }
{
    let run = values::sequence(text, 0, old, Frame::Top, 64, buf, 0)?;
    let p = output::put_le(buf, run.pos, numbers::int::far(run.pos), 4);
    let q = output::put_le(buf, p, numbers::int::far(run.count), 4);
    Some(Made {
        length: q,
        count: run.count,
    })
}

// How much of a buffer of n bytes a tape may fill.
pub fn limit_of(n: usize) -> usize
    ensures { result ≡ min n 1048576 }
{
    n.min(1048576)
}

// Reads a text and lays its tape at the buffer's start: the tape's length, or refusal 8 or 9, which zero the buffer.
pub fn read_text(text: &[u8], out: &mut [u8]) -> Answer
    ensures answer { outcome result ≡ answer text.now (length out.old) }
    ensures buffer { out.new ≡ leaves text.now out.old }
{
    let limit = limit_of(out.len());
    let Some(made) = write_tape(text, false, &mut out[..limit]) else {
        output::zero(out);
        return Answer::OutsideGrammar;
    };
    if limit < made.length {
        output::zero(out);
        return Answer::TapeTooLong;
    }
    Answer::Count(made.length)
}
