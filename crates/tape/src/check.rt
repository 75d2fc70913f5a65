// Validation: the first problem of a tape, and what the writers ask of its nodes, in one walk.
ghost use Rattle.std.specs.Prelude.{◌≡◌, ◌+◌, ◌<◌, ◌≤◌, eqb, length, take, drop};
ghost use Rattle.output.specs.Logic.{if};
ghost use Rattle.text_rules.specs.Utf8.{valid};
ghost use Rattle.tape.specs.Bytes.{part};
ghost use Rattle.tape.specs.Tree.{null, bool};
ghost use Rattle.tape.specs.Tape.{kind, text_of, sym_of, syms_of, name_of, notes_of, byte_of, int_of, float_as, float_of, decimal_of, timestamp_of, scalar_of, text_fault, sym_fault, name_fault, free_at, walk};
ghost use Rattle.tape.specs.CheckSteps.{code_of, scalar_code, span_of, number_in, name_number_in, end_of, frame_of, syms_front, notes_front, Checks};
ghost use Rattle.tape.specs.Answer.{fault_number};
ghost use Rattle.tape.specs.Checked.{BodyEnds, TapeChecks};

use crate::Frame;
use crate::answer::Fault;

// Annotations that are not refused: where they end, and, of them and of the nodes before them, whether there are annotations and whether
// there is an identifier but 0.
#[derive(Clone, Copy)]
pub struct Front {
    pub end: usize,
    pub noted: bool,
    pub numbered: bool,
}

// What is told of the nodes of a body without a problem: how many stand side by side in it, whether there are annotations, and whether there is an
// identifier but 0.
#[derive(Clone, Copy)]
pub struct Checked {
    pub count: usize,
    pub noted: bool,
    pub numbered: bool,
}

// ---- contents: how many bytes a node without a body takes; 0 where it is refused by 2, 1 where it is refused by 4

// The n bytes of the text node at a place are UTF-8. Eight bytes at most are told by one word where they are ASCII.
fn is_text(tape: &[u8], at: usize, n: usize) -> bool
    requires { at + (5 + n) + 8 ≤ length tape.now }
    ensures { result ≡ valid (take n (drop (at + 5) tape.now)) }
{
    if n == 0 {
        return true;
    }
    let from = at + 5;
    if n <= 8 {
        if text_rules::utf8::is_ascii(output::word_at(tape, from), n) {
            return true;
        }
    }
    text_rules::utf8::valid_part(tape, from, n)
}

pub fn null_size(tape: &[u8], at: usize, end: usize) -> usize
    requires at_le_end { at ≤ end }
    requires end_in_bounds { end ≤ length tape.now }
    ensures { result ≡ scalar_code (byte_of 12 null (part tape.now at end)) }
{
    if end - at < 2 {
        return 0;
    }
    if 12 < tape[at + 1] {
        return 0;
    }
    2
}

pub fn bool_size(tape: &[u8], at: usize, end: usize) -> usize
    requires at_le_end { at ≤ end }
    requires end_in_bounds { end ≤ length tape.now }
    ensures { result ≡ scalar_code (byte_of 1 (λ b. bool (eqb b 1)) (part tape.now at end)) }
{
    if end - at < 2 {
        return 0;
    }
    if 1 < tape[at + 1] {
        return 0;
    }
    2
}

// Only whole numbers up to the most, infinities and the one NaN have a text.
fn bits_size(b: u64) -> usize
    ensures { result ≡ scalar_code (float_as b) }
{
    match floats::bits::magnitude_of(b) {
        Some(_) => 9,
        None => {
            if b == 0x7FF8_0000_0000_0000 {
                return 9;
            }
            let m = b % 0x8000_0000_0000_0000;
            if m == 0x7FF0_0000_0000_0000 {
                return 9;
            }
            if 0x7FF0_0000_0000_0000 < m {
                return 0;
            }
            1
        }
    }
}

pub fn float_size(tape: &[u8], at: usize, end: usize) -> usize
    requires at_le_end { at ≤ end }
    requires end_in_bounds { end ≤ length tape.now }
    ensures { result ≡ scalar_code (float_of (part tape.now at end)) }
{
    if end - at < 9 {
        return 0;
    }
    bits_size(crate::u64_at(tape, at + 1))
}

pub fn int_size(tape: &[u8], at: usize, end: usize) -> usize
    requires at_le_end { at ≤ end }
    requires end_in_bounds { end ≤ length tape.now }
    ensures { result ≡ scalar_code (int_of (part tape.now at end)) }
{
    if end - at < 9 {
        return 0;
    }
    9
}

pub fn decimal_size(tape: &[u8], at: usize, end: usize) -> usize
    requires at_le_end { at ≤ end }
    requires end_in_bounds { end ≤ length tape.now }
    ensures { result ≡ scalar_code (decimal_of (part tape.now at end)) }
{
    if end - at < 14 {
        return 0;
    }
    if 1 < tape[at + 1] {
        return 0;
    }
    14
}

// The calendar.
pub fn timestamp_size(tape: &[u8], at: usize, end: usize) -> usize
    requires at_le_end { at ≤ end }
    requires end_in_bounds { end ≤ length tape.now }
    ensures { result ≡ scalar_code (timestamp_of (part tape.now at end)) }
{
    if end - at < 16 {
        return 0;
    }
    if numbers::timestamp::is_well_formed(crate::timestamp_of(tape, at)) {
        return 16;
    }
    0
}

// A node with a length, and the bytes that the length says; of a container, too.
pub fn span(tape: &[u8], at: usize, end: usize) -> usize
    requires at_le_end { at ≤ end }
    requires end_in_bounds { end ≤ length tape.now }
    ensures { result ≡ span_of (part tape.now at end) }
{
    if end - at < 5 {
        return 0;
    }
    let n = crate::u32_at(tape, at + 1) as usize;
    if end - at - 5 < n {
        return 0;
    }
    5 + n
}

// A string's node.
pub fn text_size(tape: &[u8], at: usize, end: usize) -> usize
    requires at_le_end { at ≤ end }
    requires end_in_bounds { end ≤ length tape.now }
    ensures { result ≡ code_of text_fault (text_of (part tape.now at end)) }
{
    let n = span(tape, at, end);
    if n == 0 {
        return 0;
    }
    if text_rules::utf8::valid_part(tape, at + 5, n - 5) {
        return n;
    }
    0
}

// The node of a symbol's text. Symbols are short, so a word is tested first.
pub fn word_size(tape: &[u8], at: usize, end: usize) -> usize
    requires at_le_end { at ≤ end }
    requires end_in_bounds { end + 8 ≤ length tape.now }
    ensures { result ≡ code_of text_fault (text_of (part tape.now at end)) }
{
    let n = span(tape, at, end);
    if n == 0 {
        return 0;
    }
    if is_text(tape, at, n - 5) {
        return n;
    }
    0
}

// A symbol's node.
pub fn sym_size(tape: &[u8], at: usize, end: usize) -> usize
    requires at_le_end { at ≤ end }
    requires end_in_bounds { end + 8 ≤ length tape.now }
    ensures { result ≡ code_of sym_fault (sym_of (part tape.now at end)) }
{
    if end - at < 5 {
        return 0;
    }
    let k = tape[at];
    if k == 6 {
        return word_size(tape, at, end);
    }
    if k == 7 {
        return 5;
    }
    0
}

// Whether the node at a place is an identifier but 0.
pub fn is_number(tape: &[u8], at: usize, end: usize) -> bool
    requires at_lt_end { at < end }
    requires end_in_bounds { end ≤ length tape.now }
    ensures { result ≡ number_in (part tape.now at end) }
{
    if tape[at] != 7 {
        return false;
    }
    if end - at < 5 {
        return false;
    }
    crate::u32_at(tape, at + 1) != 0
}

fn scalar_size(tape: &[u8], at: usize, end: usize) -> usize
    requires at_lt_end { at < end }
    requires end_in_bounds { end + 8 ≤ length tape.now }
    requires end_bound { kind (part tape.now at end) < 10 }
    ensures { result ≡ scalar_code (scalar_of (part tape.now at end)) }
{
    let k = tape[at];
    if k == 0 {
        return null_size(tape, at, end);
    }
    if k == 1 {
        return bool_size(tape, at, end);
    }
    if k == 2 {
        return int_size(tape, at, end);
    }
    if k == 3 {
        return float_size(tape, at, end);
    }
    if k == 4 {
        return decimal_size(tape, at, end);
    }
    if k == 5 {
        return timestamp_size(tape, at, end);
    }
    if k == 8 {
        return text_size(tape, at, end);
    }
    if k == 9 {
        return span(tape, at, end);
    }
    // 6 or 7
    sym_size(tape, at, end)
}

// By what a scalar is refused, by its size.
pub fn size_fault(n: usize) -> Fault
    ensures { fault_number result ≡ if (eqb n 0) 2 4 }
{
    if n == 0 {
        Fault::BadNode
    } else {
        Fault::FiniteFloat
    }
}

// The frame of a container, by its kind byte 10, 11 or 12.
pub fn frame_of(k: u8) -> Frame
    ensures { result ≡ frame_of k }
{
    if k == 10 {
        return Frame::List;
    }
    if k == 11 {
        return Frame::Sexp;
    }
    Frame::Struct
}

// ---- heads

// n symbols from a place on, if none is refused, which is always by 2. `already`: there was an identifier but 0 before.
fn syms_seen(tape: &[u8], at: usize, end: usize, n: u8, already: bool) -> Option<Front>
    requires at_le_end { at ≤ end }
    requires end_in_bounds { end + 8 ≤ length tape.now }
    ensures { result ≡ syms_front at already (syms_of n (part tape.now at end)) }
{
    let mut p = at;
    let mut numbered = already;
    for _ in 0..n {
        let size = sym_size(tape, p, end);
        if size == 0 {
            return None;
        }
        numbered |= is_number(tape, p, end);
        p += size;
    }
    Some(Front {
        end: p,
        noted: true,
        numbered,
    })
}

// The annotations at a place, behind a name. `noted`, `numbered`: what was met before.
fn notes_seen(tape: &[u8], at: usize, end: usize, noted: bool, numbered: bool) -> Option<Front>
    requires at_le_end { at ≤ end }
    requires end_in_bounds { end + 8 ≤ length tape.now }
    ensures { result ≡ notes_front at noted numbered (notes_of (part tape.now at end)) }
{
    if at == end || tape[at] != 13 {
        return Some(Front {
            end: at,
            noted,
            numbered,
        });
    }
    if end - at < 2 {
        return None;
    }
    let n = tape[at + 1];
    if n < 1 || 16 < n {
        return None;
    }
    syms_seen(tape, at + 2, end, n, numbered)
}

// Behind the name of the child at a place, or at the place where it has none; at the end where the name is refused.
pub fn behind_name(tape: &[u8], at: usize, end: usize, frame: Frame) -> usize
    requires at_le_end { at ≤ end }
    requires end_in_bounds { end + 8 ≤ length tape.now }
    ensures { result ≡ end_of name_fault at end (name_of frame (part tape.now at end)) }
{
    match frame {
        Frame::Struct => {
            let n = sym_size(tape, at, end);
            if n == 0 {
                return end;
            }
            at + n
        }
        Frame::Top | Frame::List | Frame::Sexp => at,
    }
}

// Whether the name of the child at a place is an identifier but 0.
pub fn name_number(tape: &[u8], at: usize, end: usize, frame: Frame) -> bool
    requires at_lt_end { at < end }
    requires end_in_bounds { end ≤ length tape.now }
    ensures { result ≡ name_number_in frame (part tape.now at end) }
{
    match frame {
        Frame::Struct => is_number(tape, at, end),
        Frame::Top | Frame::List | Frame::Sexp => false,
    }
}

// Whether a marker may stand here.
pub fn is_free(tape: &[u8], at: usize, end: usize, frame: Frame) -> bool
    requires at_lt_end { at < end }
    requires end_in_bounds { end ≤ length tape.now }
    ensures { result ≡ free_at frame (part tape.now at end) }
{
    match frame {
        Frame::Top => tape[at] != 13,
        Frame::List | Frame::Sexp | Frame::Struct => false,
    }
}

// ---- bodies

// What stands in a body, or the first problem among its nodes. A body is opened while `depth` more may be.
// Eight bytes stand behind every body, as the trailer does, so that a word may be loaded at any place of it.
fn check_nodes(
    tape: &[u8],
    from: usize,
    end: usize,
    frame: Frame,
    depth: usize,
) -> Result<Checked, Fault>
    requires from_le_end { from ≤ end }
    requires end_in_bounds { end + 8 ≤ length tape.now }
    ensures { Checks (walk depth frame (part tape.now from end)) result }
{
    if depth == 0 {
        return Err(Fault::TooDeep);
    }
    let mut at = from;
    let mut count: usize = 0;
    let mut noted = false;
    let mut numbered = false;
    // A walk: the step is the node's size.
    while at < end {
        let q = behind_name(tape, at, end, frame);
        if q == end {
            return Err(Fault::BadNode);
        }
        numbered |= name_number(tape, at, end, frame);
        let mut p = q;
        if tape[q] == 13 {
            let Some(front) = notes_seen(tape, q, end, noted, numbered) else {
                return Err(Fault::BadNode);
            };
            if front.end == end {
                return Err(Fault::BadNode);
            }
            p = front.end;
            noted = front.noted;
            numbered = front.numbered;
        }
        let k = tape[p];
        if k < 10 {
            let n = scalar_size(tape, p, end);
            if n < 2 {
                return Err(size_fault(n));
            }
            numbered |= is_number(tape, p, end);
            count += 1;
            at = p + n;
        } else {
            if k < 13 {
                let n = span(tape, p, end);
                if n == 0 {
                    return Err(Fault::BadNode);
                }
                let inner = check_nodes(tape, p + 5, p + n, frame_of(k), depth - 1)?;
                noted |= inner.noted;
                numbered |= inner.numbered;
                count += 1;
                at = p + n;
            } else {
                if k == 15 {
                    let n = span(tape, p, end);
                    if n == 0 {
                        return Err(Fault::BadNode);
                    }
                    count += 1;
                    at = p + n;
                } else {
                    if k != 14 {
                        return Err(Fault::BadNode);
                    }
                    if is_free(tape, at, end, frame) {
                        count += 1;
                        at = p + 1;
                    } else {
                        return Err(Fault::BadNode);
                    }
                }
            }
        }
    }
    Ok(Checked {
        count,
        noted,
        numbered,
    })
}

// Where the nodes of a tape end, if its length is as it must be.
pub fn body_end(tape: &[u8]) -> Result<usize, Fault>
    ensures { BodyEnds tape.now result }
{
    let n = tape.len();
    if n < 8 || 1048576 < n {
        return Err(Fault::Misfit);
    }
    let end = n - 8;
    if crate::u32_at(tape, end) as usize + 8 != n {
        return Err(Fault::Misfit);
    }
    Ok(end)
}

// What stands in a tape, or the refusal that both writers share: the length, then the nodes, then whether the trailer counts them right.
#[tactic(auto, using(crate::proofs::CodeVerdict::refuse_inner))]
pub fn check_tape(tape: &[u8]) -> Result<Checked, Fault>
    ensures { TapeChecks tape.now result }
{
    let end = body_end(tape)?;
    let claimed = crate::u32_at(tape, end + 4) as usize;
    let c = match check_nodes(tape, 0, end, Frame::Top, 65) {
        Ok(c) => c,
        Err(fault) => return Err(fault),
    };
    if claimed != c.count {
        return Err(Fault::BadNode);
    }
    Ok(c)
}
