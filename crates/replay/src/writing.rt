// Writing, compared with the list: the answer and the whole buffer; and the length of the text, before it is written.
ghost use Rattle.listing.specs.Seen.{Keeps};

use crate::FILL;
use listing::compare::Due;
use listing::report::Seen;
use listing::{compare, report};
use std::io;
use tape::answer::Answer;

// The number of a layout: its digit, or for `m` the largest.
fn number_of(layout: u8) -> u32 {
    match layout {
        b'0'..=b'9' => u32::from(layout - b'0'),
        _ => u32::MAX,
    }
}

fn write(layout: u8, tape: &[u8], out: &mut [u8]) -> Answer {
    match layout {
        b't' => tree::write_tree(tape, out),
        _ => writer::writer::write_stream(number_of(layout), tape, out),
    }
}

fn length(layout: u8, tape: &[u8]) -> Answer {
    match layout {
        b't' => tree::tree_length(tape),
        _ => measure::text_length(number_of(layout), tape),
    }
}

// The length of a text: the refusal, or the count of the bytes.
fn measured(rt: &impl Print, layout: u8, tape: &[u8], due: Due, seen: &mut Seen) -> io::Result<()>
    ensures { Keeps seen.old seen.new }
{
    report::count(&mut seen.writes);
    let a = length(layout, tape);
    compare::judge(rt, layout, a, due, due.bytes, seen)
}

// One call, on a buffer that is 165 all over.
fn write_in(
    rt: &impl Print,
    layout: u8,
    tape: &[u8],
    due: Due,
    room: usize,
    seen: &mut Seen,
) -> io::Result<()>
    ensures { Keeps seen.old seen.new }
{
    let mut buf = [FILL; 32768];
    let Some(out) = buf.get_mut(..room) else {
        return report::malformed(rt, seen);
    };
    report::count(&mut seen.writes);
    let a = write(layout, tape, out);
    compare::judge(rt, layout, a, due, out, seen)
}

// A text: its length; written with room to spare, with just its room, and with less: one byte less, half of it and none.
pub fn text(
    rt: &impl Print,
    layout: u8,
    bytes: &[u8],
    tape: &[u8],
    seen: &mut Seen,
) -> io::Result<()>
    ensures { Keeps seen.old seen.new }
{
    let n = bytes.len();
    if 32000 < n {
        return report::malformed(rt, seen);
    }
    let whole = Due {
        refusal: None,
        bytes,
        rest: FILL,
    };
    measured(rt, layout, tape, whole, seen)?;
    write_in(rt, layout, tape, whole, n + 9, seen)?;
    write_in(rt, layout, tape, whole, n, seen)?;
    if n == 0 {
        return Ok(());
    }
    let cut = Due {
        refusal: Some(6),
        ..whole
    };
    for room in [n - 1, n / 2, 0] {
        write_in(rt, layout, tape, cut, room, seen)?;
    }
    Ok(())
}

// A refusal. 6 comes with its buffer, and says nothing of the length; any other leaves the buffer alone, whether there is one or not.
pub fn refusal(
    rt: &impl Print,
    layout: u8,
    number: u8,
    bytes: &[u8],
    tape: &[u8],
    seen: &mut Seen,
) -> io::Result<()>
    ensures { Keeps seen.old seen.new }
{
    let due = Due {
        refusal: Some(number),
        bytes,
        rest: FILL,
    };
    if number == 6 {
        return write_in(rt, layout, tape, due, bytes.len(), seen);
    }
    if !bytes.is_empty() {
        return report::malformed(rt, seen);
    }
    measured(rt, layout, tape, due, seen)?;
    write_in(rt, layout, tape, due, 0, seen)?;
    write_in(rt, layout, tape, due, 40, seen)
}
