// Reading, compared with the list: each text gives its own tape or is refused, and each line of a Lines text gives the tape of its node.
ghost use Rattle.listing.specs.Seen.{Keeps};
ghost use Rattle.std.specs.Prelude.{◌++◌, length};
ghost use Rattle.output.specs.Wrote.{Wrote, le_bytes};

use crate::FILL;
use line_reader::Called;
use listing::compare::Due;
use listing::report::Seen;
use listing::{compare, report};
use std::io;
use tape::answer::Answer;

// One call, on a buffer that is 165 all over.
fn read_in(rt: &impl Print, text: &[u8], due: Due, room: usize, seen: &mut Seen) -> io::Result<()>
    ensures { Keeps seen.old seen.new }
{
    let mut buf = [FILL; 32768];
    let Some(out) = buf.get_mut(..room) else {
        return report::malformed(rt, seen);
    };
    report::count(&mut seen.reads);
    let a = reader::read_text(text, out);
    compare::judge(rt, b'r', a, due, out, seen)
}

// A refusal leaves zeros.
fn zeros(number: u8) -> Due<'static> {
    Due {
        refusal: Some(number),
        bytes: b"",
        rest: 0,
    }
}

// A text gives its tape, with room to spare and with just its room; one byte less is refusal 9.
pub fn text(rt: &impl Print, text: &[u8], tape: &[u8], seen: &mut Seen) -> io::Result<()>
    ensures { Keeps seen.old seen.new }
{
    let n = tape.len();
    if n == 0 || 32000 < n {
        return report::malformed(rt, seen);
    }
    let whole = Due {
        refusal: None,
        bytes: tape,
        rest: FILL,
    };
    read_in(rt, text, whole, n + 9, seen)?;
    read_in(rt, text, whole, n, seen)?;
    read_in(rt, text, zeros(9), n - 1, seen)
}

// A refusal comes whatever the room.
pub fn refusal(rt: &impl Print, number: u8, text: &[u8], seen: &mut Seen) -> io::Result<()>
    ensures { Keeps seen.old seen.new }
{
    for room in [0, 40, 9999] {
        read_in(rt, text, zeros(number), room, seen)?;
    }
    Ok(())
}

// Where the next call goes on in the text, and the nodes that are still to come.
#[derive(Clone, Copy)]
struct Place<'a> {
    at: usize,
    left: &'a [u8],
}

// The tape of one node: the node's bytes, then a trailer with their number and 1.
fn node_tape(node: &[u8], made: &mut [u8]) -> usize
    ensures { Wrote made.old made.new 0 result (node.now ++ le_bytes 4 (length node.now) ++ le_bytes 4 1) }
{
    let p = output::put_bytes(made, 0, node);
    let q = output::put_le(made, p, node.len() as u64, 4);
    output::put_le(made, q, 1, 4)
}

// A line's tape is the node's, and behind it the buffer is as it was.
fn judge_node(
    rt: &impl Print,
    a: Answer,
    node: &[u8],
    out: &[u8],
    seen: &mut Seen,
) -> io::Result<()>
    ensures { Keeps seen.old seen.new }
{
    let mut made = [0u8; 16392];
    let n = node_tape(node, &mut made);
    let Some(bytes) = made.get(..n) else {
        return report::malformed(rt, seen);
    };
    let due = Due {
        refusal: None,
        bytes,
        rest: FILL,
    };
    compare::judge(rt, b'1', a, due, out, seen)
}

// What a call made of the line at a place, and the place behind it; none behind the end mark or a difference.
fn judge<'a>(
    rt: &impl Print,
    c: Called,
    text: &[u8],
    nodes: &[u8],
    left: &'a [u8],
    out: &[u8],
    seen: &mut Seen,
) -> io::Result<Option<Place<'a>>>
    ensures { Keeps seen.old seen.new }
{
    let Called { answer, at } = c;
    match answer {
        Answer::Count(n) => {
            if let Some((node, left)) = n
                .checked_sub(8)
                .and_then(|size| left.split_at_checked(size))
            {
                judge_node(rt, answer, node, out, seen)?;
                return Ok(Some(Place { at, left }));
            }
        }
        Answer::End => {
            if at == text.len() && left.is_empty() {
                return Ok(None);
            }
        }
        _ => {}
    }
    report::line_differs(rt, at, nodes, answer, out, seen)?;
    Ok(None)
}

// One call, on a buffer that is 165 all over, with 9 bytes to spare for the whole tape.
fn line<'a>(
    rt: &impl Print,
    text: &[u8],
    nodes: &[u8],
    place: Place<'a>,
    seen: &mut Seen,
) -> io::Result<Option<Place<'a>>>
    ensures { Keeps seen.old seen.new }
{
    let mut buf = [FILL; 16401];
    let n = nodes.len();
    if 16384 < n {
        report::malformed(rt, seen)?;
        return Ok(None);
    }
    let out = &mut buf[..n + 17];
    report::count(&mut seen.reads);
    let c = line_reader::call_at(text, place.at, out);
    judge(rt, c, text, nodes, place.left, out, seen)
}

// The lines of a Lines text, one node of the tape each, through the end mark.
pub fn lines(rt: &impl Print, text: &[u8], tape: &[u8], seen: &mut Seen) -> io::Result<()>
    ensures { Keeps seen.old seen.new }
{
    let Some((nodes, _)) = tape.split_last_chunk::<8>() else {
        return report::malformed(rt, seen);
    };
    let mut place = Place { at: 0, left: nodes };
    for _ in 0..=text.len() {
        let Some(next) = line(rt, text, nodes, place, seen)? else {
            return Ok(());
        };
        place = next;
    }
    report::malformed(rt, seen)
}
