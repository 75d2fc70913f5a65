// The nodes of a tape, one a line: offset, blanks for the depth, kind and value. The same walk in silence finds the first node that is not as
// it must be. A node's text, and whether it is good, is asked of the writer, on a tape of that node alone.
ghost use Rattle.std.specs.Prelude.{◌≡◌, ◌+◌, ◌-◌, ◌<◌, ◌≤◌, length};
ghost use Rattle.output.specs.Wrote.{limit};

use crate::line;
use tape::Frame;
use tape::answer::Answer;

// Where nodes stand side by side: in what, and in how many containers; and whether lines are printed.
#[derive(Clone, Copy)]
struct How {
    frame: Frame,
    level: usize,
    aloud: bool,
}

// ---- places

// A place, if it lies between two others; else the second.
fn between(place: Option<usize>, at: usize, end: usize) -> usize
    requires { at ≤ end }
    ensures { (at ≤ result) × (result ≤ end) }
{
    match place {
        Some(p) if at <= p && p <= end => p,
        _ => end,
    }
}

fn is_container(kind: u8) -> bool {
    matches!(kind, 10..=12)
}

// Where the container at a place ends; at the place itself where there is none.
fn container_end(body: &[u8], at: usize) -> usize
    requires { at ≤ length body.now }
    ensures { (at ≤ result) × (result ≤ length body.now) }
{
    if body.len() - at < 5 {
        return at;
    }
    let n = tape::u32_at(body, at + 1) as usize;
    if body.len() - at - 5 < n {
        return at;
    }
    at + 5 + n
}

// The same for a scalar.
fn scalar_end(body: &[u8], at: usize) -> usize
    requires { at ≤ length body.now }
    ensures { (at ≤ result) × (result ≤ length body.now) }
{
    let Some(s) = tape::scalar_at(body, at, body.len()) else {
        return at;
    };
    at + tape::size_of(s)
}

// The same for any value. `free`: a marker may stand there.
fn value_end(body: &[u8], at: usize, free: bool) -> usize
    requires { at ≤ length body.now }
    ensures { (at ≤ result) × (result ≤ length body.now) }
{
    if at == body.len() {
        return at;
    }
    let kind = body[at];
    if is_container(kind) {
        return container_end(body, at);
    }
    if kind == 14 {
        return if free { at + 1 } else { at };
    }
    scalar_end(body, at)
}

// Where the name at a place ends, which is there if it has none; the end of all where it is not as it must be.
fn name_end(body: &[u8], at: usize, frame: Frame) -> usize
    requires { at ≤ length body.now }
    ensures { (at ≤ result) × (result ≤ length body.now) }
{
    between(tape::name_end(body, at, body.len(), frame), at, body.len())
}

// Whether a child stands at top level, with nothing before its value.
fn is_bare_top(level: usize, at: usize, value: usize) -> bool {
    level == 0 && at == value
}

// Where a child's value starts, behind its name and its annotations, and where it ends. Both are the same where there is no child.
#[derive(Clone, Copy)]
struct Span {
    value: usize,
    next: usize,
}

fn span_at(body: &[u8], at: usize, frame: Frame, level: usize) -> Span
    requires { at ≤ length body.now }
    ensures { (at ≤ result.value) × (result.value ≤ result.next) × (result.next ≤ length body.now) }
{
    let name = name_end(body, at, frame);
    let value = between(tape::notes_end(body, name, body.len()), name, body.len());
    let next = value_end(body, value, is_bare_top(level, at, value));
    Span { value, next }
}

// ---- lines. Nodes are given by their bytes and their offset in the tape

// What every line starts with.
fn start(text: &mut [u8], offset: usize, level: usize) -> usize
    requires { level ≤ 64 }
    ensures { result ≤ limit }
{
    let p = line::put_column(text, 0, offset);
    output::put_repeated(text, p, b' ', 2 + 2 * level)
}

// A node as a tape of its own; that tape's length.
fn alone(node: &[u8], spare: &mut [u8]) -> usize {
    let p = output::put_bytes(spare, 0, node);
    let q = output::put_le(spare, p, node.len() as u64, 4);
    output::put_le(spare, q, 1, 4)
}

// Behind a position, the Lines text of a tape of one node, which ends in LF. Says whether the node is good and, aloud, the line is out.
fn node_text(
    rt: &(impl Print + Eprint),
    tape: &[u8],
    aloud: bool,
    text: &mut [u8],
    pos: usize,
) -> bool {
    if text.len() < pos {
        return false;
    }
    let a = writer::writer::write_stream(1, tape, &mut text[pos..]);
    let Answer::Count(n) = a else {
        return false;
    };
    if aloud {
        return line::emit(rt, text, output::ahead(pos, n));
    }
    true
}

// The line of a node without a body.
fn leaf(
    rt: &(impl Print + Eprint),
    node: &[u8],
    offset: usize,
    kind: u8,
    how: How,
    text: &mut [u8],
    spare: &mut [u8],
) -> bool
    requires { how.level ≤ 64 }
{
    let n = alone(node, spare);
    let p = start(text, offset, how.level);
    let q = line::put_kind(text, p, kind);
    let r = output::put(text, q, b' ');
    if spare.len() < n {
        return false;
    }
    node_text(rt, &spare[0..n], how.aloud, text, r)
}

// The line before or behind the nodes of a container.
fn bracket(
    rt: &(impl Print + Eprint),
    offset: usize,
    what: &[u8],
    kind: u8,
    how: How,
    text: &mut [u8],
) -> bool
    requires { how.level ≤ 64 }
{
    if !how.aloud {
        return true;
    }
    let p = start(text, offset, how.level);
    let q = output::put_bytes(text, p, what);
    let r = line::put_kind(text, q, kind);
    let s = output::put(text, r, b'\n');
    line::emit(rt, text, s)
}

// ---- nodes. Each function answers the offset where it stopped: behind the last node, or of the first one that is not as it must be

// Symbols side by side: a name, or annotations.
fn syms(
    rt: &(impl Print + Eprint),
    part: &[u8],
    offset: usize,
    kind: u8,
    how: How,
    text: &mut [u8],
    spare: &mut [u8],
) -> usize
    requires part_bound { offset + length part.now ≤ limit }
    requires level_bound { how.level ≤ 64 }
    ensures { (offset ≤ result) × (result ≤ offset + length part.now) }
{
    let mut at: usize = 0;
    // A walk: the step is the symbol's size.
    while at < part.len() {
        let next = name_end(part, at, Frame::Struct);
        if next == at {
            return offset + at;
        }
        if !leaf(rt, &part[at..next], offset + at, kind, how, text, spare) {
            return offset + at;
        }
        at = next;
    }
    offset + at
}

// What stands before a value: the name and, behind a kind byte and their number, the annotations.
fn head(
    rt: &(impl Print + Eprint),
    part: &[u8],
    offset: usize,
    how: How,
    text: &mut [u8],
    spare: &mut [u8],
) -> usize
    requires part_bound { offset + length part.now ≤ limit }
    requires level_bound { how.level ≤ 64 }
    ensures { (offset ≤ result) × (result ≤ offset + length part.now) }
{
    let frame = how.frame;
    let name = name_end(part, 0, frame);
    let n = syms(rt, &part[0..name], offset, line::NAME, how, text, spare);
    if n != offset + name {
        return n;
    }
    if part.len() - name < 2 {
        return offset + part.len();
    }
    syms(
        rt,
        &part[name + 2..],
        offset + name + 2,
        line::ANNOTATION,
        how,
        text,
        spare,
    )
}

// In the container of a kind.
fn inside(kind: u8, how: How) -> How
    requires { how.level < 64 }
    ensures { result.level ≡ how.level + 1 }
{
    let frame = tape::check::frame_of(kind);
    How {
        frame,
        level: how.level + 1,
        ..how
    }
}

#[cycle(nodes_value)]
fn value(
    rt: &(impl Print + Eprint),
    node: &[u8],
    offset: usize,
    how: How,
    text: &mut [u8],
    spare: &mut [u8],
) -> usize
    requires node_nonzero { 0 < length node.now }
    requires node_bound { offset + length node.now ≤ limit }
    requires level_bound { how.level ≤ 64 }
    ensures { (offset ≤ result) × (result ≤ offset + length node.now) }
{
    let end = offset + node.len();
    let kind = node[0];
    if !is_container(kind) {
        if leaf(rt, node, offset, kind, how, text, spare) {
            return end;
        }
        return offset;
    }
    if how.level == 64 {
        return offset;
    }
    if node.len() < 5 {
        return offset;
    }
    if !bracket(rt, offset, b"", kind, how, text) {
        return offset;
    }
    let stopped = nodes(rt, &node[5..], offset + 5, inside(kind, how), text, spare);
    if stopped != end {
        return stopped;
    }
    if bracket(rt, end, b"end of ", kind, how, text) {
        return end;
    }
    offset
}

#[cycle(nodes_value)]
fn nodes(
    rt: &(impl Print + Eprint),
    body: &[u8],
    offset: usize,
    how: How,
    text: &mut [u8],
    spare: &mut [u8],
) -> usize
    requires body_bound { offset + length body.now ≤ limit }
    requires level_bound { how.level ≤ 64 }
    ensures { (offset ≤ result) × (result ≤ offset + length body.now) }
{
    let frame = how.frame;
    let mut at: usize = 0;
    // A walk: the step is the node's size.
    while at < body.len() {
        let s = span_at(body, at, frame, how.level);
        let from = s.value;
        let next = s.next;
        if next == from {
            return offset + at;
        }
        let h = head(rt, &body[at..from], offset + at, how, text, spare);
        if h != offset + from {
            return h;
        }
        let v = value(rt, &body[from..next], offset + from, how, text, spare);
        if v != offset + next {
            return v;
        }
        at = next;
    }
    offset + at
}

// Where the trailer of a tape starts, or 0.
pub fn body_end(tape: &[u8]) -> usize
    ensures { result ≡ length tape.now - 8 }
{
    tape.len().saturating_sub(8)
}

// The offset where the walk over a tape's nodes stopped: their end, or the first that is not as it must be.
pub fn walk(
    rt: &(impl Print + Eprint),
    tape: &[u8],
    aloud: bool,
    text: &mut [u8],
    spare: &mut [u8],
) -> usize
    ensures { result ≤ length tape.now - 8 }
{
    let end = body_end(tape);
    let how = How {
        frame: Frame::Top,
        level: 0,
        aloud,
    };
    nodes(rt, &tape[0..end], 0, how, text, spare)
}

// The field whose name stands at an offset, a line for each of its nodes. The offset where it stopped.
pub fn field(
    rt: &(impl Print + Eprint),
    tape: &[u8],
    at: usize,
    text: &mut [u8],
    spare: &mut [u8],
) -> usize
    ensures { result ≤ length tape.now }
{
    let end = body_end(tape);
    if end < at {
        return end;
    }
    let body = &tape[at..end];
    let s = span_at(body, 0, Frame::Struct, 0);
    let next = s.next;
    let how = How {
        frame: Frame::Struct,
        level: 0,
        aloud: true,
    };
    nodes(rt, &body[0..next], at, how, text, spare)
}
