// The public writer: any layout number, any tape, any buffer.
ghost use Rattle.std.specs.Prelude.{◌≡◌, length};
ghost use Rattle.tape.specs.Answer.{outcome};
ghost use Rattle.writer.specs.Outcome.{streamed, leaves, streamed_with, leaves_with};

use crate::value_writer;
use tape::Frame;
use tape::answer::Answer;

// Writes the text of a tape in a layout (0 Compact, 1 Lines, 2 Pretty) at the buffer's start, with every symbol text quoted if `quoted`.
// Answers the count of bytes, or 7, 1, 2, 3, 4 or 5 with the buffer untouched, or 6 with the buffer filled by the text's first bytes.
pub fn write_stream_with(quoted: bool, layout: u32, tape: &[u8], out: &mut [u8]) -> Answer
    ensures answer { outcome result ≡ streamed_with quoted layout tape.now (length out.old) }
    ensures buffer { out.new ≡ leaves_with quoted layout tape.now out.old }
{
    if 2 < layout {
        return Answer::NoLayout;
    }
    let c = match tape::check::check_tape(tape) {
        Ok(c) => c,
        Err(fault) => return Answer::from(fault),
    };
    if c.noted {
        return Answer::Unsuited;
    }
    let end = tape.len() - 8;
    let n = value_writer::write_nodes(tape, 0, end, Frame::Top, 65, layout, 0, quoted, out, 0);
    if out.len() < n {
        return Answer::TextTooLong;
    }
    Answer::Count(n)
}

// The same with the setting off: symbol text stands bare where it may.
pub fn write_stream(layout: u32, tape: &[u8], out: &mut [u8]) -> Answer
    ensures answer { outcome result ≡ streamed layout tape.now (length out.old) }
    ensures buffer { out.new ≡ leaves layout tape.now out.old }
{
    write_stream_with(false, layout, tape, out)
}
