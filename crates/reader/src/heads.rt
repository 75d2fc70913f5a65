// What stands before a value: the name in a struct, and annotations.
ghost use Rattle.std.specs.Prelude.{◌≡◌, suc, ◌≤◌, length, drop};
ghost use Rattle.output.specs.Wrote.{limit};
ghost use Rattle.tokens.specs.Quoted.{raw_rule};
ghost use Rattle.tokens.specs.Token.{symbol};
ghost use Rattle.tape.specs.Tree.{encode_sym, encode_name, encode_notes, encode_head};
ghost use Rattle.reader.specs.Grammar.{note, notes, field, name, head};
ghost use Rattle.reader.specs.Steps.{Read, Tried, Counted, MayNote, MarksAt, note_count, free_by};

use crate::{blanks, nodes};
use tape::Frame;
use text_rules::words;
use tokens::quoted::Step;
use tokens::values::SymbolRead;

// Things were read up to `at`: `count` of them, written up to `pos`.
#[derive(Clone, Copy)]
pub struct Run {
    pub at: usize,
    pub pos: usize,
    pub count: usize,
}

// A symbol's node; `old`, here and below: by 01's raw rule. Its text is written first, its length before it then.
pub fn symbol_at(text: &[u8], at: usize, old: bool, buf: &mut [u8], pos: usize) -> Option<Step>
    requires { (at ≤ length text.now) × (pos ≤ limit) }
    ensures { Read encode_sym text.now (suc at) buf.old buf.new pos (symbol (raw_rule old) (drop at text.now)) result }
{
    let s = output::ahead(pos, 5);
    match tokens::values::symbol_at(text, at, old, buf, s)? {
        SymbolRead::Text { at: a, pos: e } => {
            nodes::put_header(buf, pos, 6, e - s);
            Some(Step { at: a, pos: e })
        }
        SymbolRead::Id { n, at: a } => {
            let q = nodes::put_header(buf, pos, 7, n as usize);
            Some(Step { at: a, pos: q })
        }
    }
}

// Whether an annotation may stand at a place: a quoted symbol, or a word with `::` behind it.
fn may_note(text: &[u8], at: usize) -> bool
    requires { at ≤ length text.now }
    ensures { MayNote text.now at result }
{
    if at == text.len() {
        return false;
    }
    let b = text[at];
    if b == b'\'' {
        return true;
    }
    if !words::is_start(b) {
        return false;
    }
    let e = words::word_end(text, at);
    words::word_stands(text, e, b"::")
}

// A symbol and `::`. It is looked for with a buffer that takes nothing of it, and written once it is there.
fn note_at(text: &[u8], at: usize, old: bool, buf: &mut [u8], pos: usize) -> Option<Step>
    requires { (at ≤ length text.now) × (pos ≤ limit) }
    ensures { Tried encode_sym text.now (suc at) buf.old buf.new pos (note (raw_rule old) (drop at text.now)) result }
{
    let mut none = [0u8; 1];
    let seen = symbol_at(text, at, old, &mut none, 0)?;
    if !words::word_stands(text, seen.at, b"::") {
        return None;
    }
    let s = symbol_at(text, at, old, buf, pos)?;
    Some(Step {
        at: seen.at + 2,
        pos: s.pos,
    })
}

// More annotations, 15 at most.
fn marks_at(text: &[u8], from: usize, old: bool, buf: &mut [u8], start: usize) -> Option<Run>
    requires { (from ≤ length text.now) × (start ≤ limit) }
    ensures { MarksAt (raw_rule old) text.now from 15 buf.old buf.new start 0 result }
{
    let mut at = from;
    let mut pos = start;
    let mut count: usize = 0;
    // A walk: the step is the annotation's length, and it ends where none is next.
    loop {
        if !may_note(text, at) {
            return Some(Run { at, pos, count });
        }
        let Some(s) = note_at(text, at, old, buf, pos) else {
            return Some(Run { at, pos, count });
        };
        if count == 15 {
            return None;
        }
        at = s.at;
        pos = s.pos;
        count += 1;
    }
}

// The annotations, 16 at most, with their number before them once it is known.
fn notes_at(text: &[u8], at: usize, old: bool, buf: &mut [u8], pos: usize) -> Option<Run>
    requires { (at ≤ length text.now) × (pos ≤ limit) }
    ensures { Counted encode_notes length text.now at buf.old buf.new pos 0 (notes (raw_rule old) 16 (drop at text.now)) result }
{
    if !may_note(text, at) {
        return Some(Run { at, pos, count: 0 });
    }
    let s = output::ahead(pos, 2);
    let Some(first) = note_at(text, at, old, buf, s) else {
        return Some(Run { at, pos, count: 0 });
    };
    let run = marks_at(text, first.at, old, buf, first.pos)?;
    nodes::put2(buf, pos, 13, run.count as u8 + 1);
    Some(Run {
        at: run.at,
        pos: run.pos,
        count: run.count + 1,
    })
}

// A name, its colon, and the blanks behind both.
fn field_at(text: &[u8], at: usize, old: bool, buf: &mut [u8], pos: usize) -> Option<Step>
    requires { (at ≤ length text.now) × (pos ≤ limit) }
    ensures { Read encode_sym text.now (suc at) buf.old buf.new pos (field (raw_rule old) (drop at text.now)) result }
{
    let s = symbol_at(text, at, old, buf, pos)?;
    let c = blanks::skip_blanks(text, s.at);
    let b = blanks::mark_at(text, c, b':')?;
    let d = blanks::skip_blanks(text, b);
    Some(Step { at: d, pos: s.pos })
}

// The name that the frame asks for.
fn name_at(
    text: &[u8],
    at: usize,
    old: bool,
    frame: Frame,
    buf: &mut [u8],
    pos: usize,
) -> Option<Step>
    requires { (at ≤ length text.now) × (pos ≤ limit) }
    ensures { Read encode_name text.now at buf.old buf.new pos (name (raw_rule old) frame (drop at text.now)) result }
{
    match frame {
        Frame::Struct => field_at(text, at, old, buf, pos),
        _ => Some(Step { at, pos }),
    }
}

// What stands before a value: how many annotations is counted.
pub fn head_at(
    text: &[u8],
    at: usize,
    old: bool,
    frame: Frame,
    buf: &mut [u8],
    pos: usize,
) -> Option<Run>
    requires { (at ≤ length text.now) × (pos ≤ limit) }
    ensures { Counted encode_head note_count text.now at buf.old buf.new pos 0 (head (raw_rule old) frame (drop at text.now)) result }
{
    let s = name_at(text, at, old, frame, buf, pos)?;
    notes_at(text, s.at, old, buf, s.pos)
}

// A marker may stand at the top, behind no annotation.
pub fn free_of(frame: Frame, count: usize) -> bool
    ensures { result ≡ free_by frame count }
{
    match frame {
        Frame::Top => count == 0,
        _ => false,
    }
}
