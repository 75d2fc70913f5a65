// Values and sequences, which call each other: a value passes its bracket before its sequence, so the text that is left falls.
ghost use Rattle.std.specs.Prelude.{◌≤◌, length};
ghost use Rattle.output.specs.Wrote.{limit};
ghost use Rattle.tokens.specs.Quoted.{raw_rule};
ghost use Rattle.reader.specs.Steps.{ValueAt, RunAt};

use crate::heads::Run;
use crate::{blanks, heads, nodes, scalars};
use tape::Frame;
use tokens::quoted::Step;

// Reads the value at `at` in `frame`, in which `left` more containers may be open together, by 01's raw rule if `old`, and writes its nodes
// at `pos`. A container's children are written first, their length before them then.
#[cycle(sequence_value)]
pub fn value(
    text: &[u8],
    at: usize,
    old: bool,
    frame: Frame,
    left: usize,
    buf: &mut [u8],
    pos: usize,
) -> Option<Step>
    requires { (at ≤ length text.now) × (pos ≤ limit) }
    ensures { ValueAt (raw_rule old) text.now at frame left buf.old buf.new pos result }
{
    let head = heads::head_at(text, at, old, frame, buf, pos)?;
    let Some(inner) = blanks::opener_at(text, head.at) else {
        let m = heads::free_of(frame, head.count);
        return scalars::scalar_at(text, head.at, old, m, buf, head.pos);
    };
    if left == 0 {
        return None;
    }
    let s = output::ahead(head.pos, 5);
    let run = sequence(text, head.at + 1, old, inner, left - 1, buf, s)?;
    nodes::put_header(buf, head.pos, blanks::tag_of(inner), run.pos - s);
    Some(Step {
        at: run.at,
        pos: run.pos,
    })
}

// Reads the children from `from` through the frame's end, by the same rule, and writes their nodes from `start` on.
#[cycle(sequence_value)]
pub fn sequence(
    text: &[u8],
    from: usize,
    old: bool,
    frame: Frame,
    left: usize,
    buf: &mut [u8],
    start: usize,
) -> Option<Run>
    requires { (from ≤ length text.now) × (start ≤ limit) }
    ensures { RunAt (raw_rule old) text.now from frame left buf.old buf.new start 0 result }
{
    let mut at = from;
    let mut pos = start;
    let mut count: usize = 0;
    // A walk: the step is a child's length and that of the gap behind it, and it ends at the end of the sequence.
    loop {
        let first = blanks::skip_blanks(text, at);
        if let Some(end) = blanks::close_at(text, first, frame) {
            return Some(Run {
                at: end,
                pos,
                count,
            });
        }
        let child = value(text, first, old, frame, left, buf, pos)?;
        at = blanks::gap_at(text, child.at, frame)?;
        pos = child.pos;
        count += 1;
    }
}
