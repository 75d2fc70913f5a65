// The tape: what stands at a place of it, and whether it may be written. Places are positions in the whole tape; a body ends at `end`.
#![tactic(auto)]

pub mod answer;
pub mod check;

ghost use Rattle.std.specs.Prelude.{◌≡◌, eqb, ℕ, ◌+◌, ◌-◌, ◌<◌, ◌≤◌, List, length, drop};
ghost use Rattle.tape.specs.Bytes.{le_number, signed, part};
ghost use Rattle.tape.specs.Tree.{null, bool, string, clob, blob};
ghost use Rattle.tape.specs.Tape.{sym_of, syms_of, name_of, notes_of, head_of, byte_of, int_of, float_as, float_of, decimal_of, timestamp_as, timestamp_of, symbol_of, sized_of, scalar_of};
ghost use Rattle.tape.specs.Steps.{place_of, length_in, meant_sym, scanned, size_of, size_taken, size_at};

use numbers::timestamp::Timestamp;

// Where nodes stand side by side.
#[derive(Clone, Copy)]
pub enum Frame {
    Top,
    List,
    Sexp,
    Struct,
}

// A scalar value. Of a text it has the length; the bytes stand 5 bytes behind the node's kind byte.
#[derive(Clone, Copy)]
pub enum Scalar {
    Null(u8),
    Bool(bool),
    Int(i64),
    Float(f64),
    Decimal(bool, u64, i32),
    Timestamp(Timestamp),
    Symbol(usize),
    Id(u32),
    String(usize),
    Clob(usize),
    Blob(usize),
}

// A symbol's node: text, with its length; an identifier.
#[derive(Clone, Copy)]
pub enum Symbol {
    Text(usize),
    Id(u32),
}

// ---- numbers

fn wide(x: u8) -> u64
    ensures { (result ≡ x) × (result < 256) }
{
    x as u64
}

// Two bytes, the lowest first.
fn u16_at(tape: &[u8], at: usize) -> u64
    requires { at + 2 ≤ length tape.now }
    ensures { (result ≡ le_number 2 (drop at tape.now)) × (result < 65536) }
{
    wide(tape[at]) + 256 * wide(tape[at + 1])
}

// Four bytes, the lowest first.
pub fn u32_at(tape: &[u8], at: usize) -> u64
    requires { at + 4 ≤ length tape.now }
    ensures { (result ≡ le_number 4 (drop at tape.now)) × (result < 4294967296) }
{
    let t = &tape[at..];
    wide(t[0]) + 256 * wide(t[1]) + 65536 * wide(t[2]) + 16777216 * wide(t[3])
}

// Eight bytes, the lowest first.
pub fn u64_at(tape: &[u8], at: usize) -> u64
    requires { at + 8 ≤ length tape.now }
    ensures { result ≡ le_number 8 (drop at tape.now) }
{
    u32_at(tape, at) + 4294967296 * u32_at(tape, at + 4)
}

// Two's complement of 64, 32 and 16 bits.
fn signed64(b: u64) -> i64
    ensures { result ≡ signed 64 b }
{
    if b < 0x8000_0000_0000_0000 {
        b as i64
    } else {
        !((!b) as i64)
    }
}

fn signed32(b: u64) -> i32
    requires { b < 4294967296 }
    ensures { result ≡ signed 32 b }
{
    if b < 0x8000_0000 {
        b as i32
    } else {
        !((0xFFFF_FFFF - b) as i32)
    }
}

fn signed16(b: u64) -> i16
    requires { b < 65536 }
    ensures { result ≡ signed 16 b }
{
    if b < 0x8000 {
        b as i16
    } else {
        !((0xFFFF - b) as i16)
    }
}

// ---- scalars

// The length behind the kind byte at a place, if that many bytes follow it.
fn length_at(tape: &[u8], at: usize, end: usize) -> Option<usize>
    requires at_le_end { at ≤ end }
    requires end_in_bounds { end ≤ length tape.now }
    ensures { result ≡ length_in (part tape.now at end) }
{
    if end - at < 5 {
        return None;
    }
    let n = u32_at(tape, at + 1) as usize;
    if n <= end - at - 5 { Some(n) } else { None }
}

fn null_at(tape: &[u8], at: usize, end: usize) -> Option<Scalar>
    requires at_le_end { at ≤ end }
    requires end_in_bounds { end ≤ length tape.now }
    ensures { scanned result (part tape.now at end) ≡ byte_of 12 null (part tape.now at end) }
{
    if end - at < 2 {
        return None;
    }
    let t = tape[at + 1];
    if t <= 12 { Some(Scalar::Null(t)) } else { None }
}

fn bool_at(tape: &[u8], at: usize, end: usize) -> Option<Scalar>
    requires at_le_end { at ≤ end }
    requires end_in_bounds { end ≤ length tape.now }
    ensures { scanned result (part tape.now at end) ≡ byte_of 1 (λ b. bool (eqb b 1)) (part tape.now at end) }
{
    if end - at < 2 {
        return None;
    }
    let t = tape[at + 1];
    if t <= 1 {
        Some(Scalar::Bool(t == 1))
    } else {
        None
    }
}

// The number of the int whose node stands at a place.
pub fn int_of(tape: &[u8], at: usize) -> i64
    requires { at + 9 ≤ length tape.now }
    ensures { result ≡ signed 64 (le_number 8 (drop (at + 1) tape.now)) }
{
    signed64(u64_at(tape, at + 1))
}

fn int_at(tape: &[u8], at: usize, end: usize) -> Option<Scalar>
    requires at_le_end { at ≤ end }
    requires end_in_bounds { end ≤ length tape.now }
    ensures { scanned result (part tape.now at end) ≡ int_of (part tape.now at end) }
{
    if end - at < 9 {
        return None;
    }
    Some(Scalar::Int(int_of(tape, at)))
}

// The float of 64 bits: the one NaN, no other NaN, or the value.
pub fn float_of(b: u64) -> Option<Scalar>
    ensures { (l : List ℕ) → scanned result l ≡ float_as b }
{
    if b == 0x7FF8_0000_0000_0000 {
        return Some(Scalar::Float(0.0 / 0.0));
    }
    if 0x7FF0_0000_0000_0000 < b % 0x8000_0000_0000_0000 {
        return None;
    }
    Some(Scalar::Float(f64::from_bits(b)))
}

fn float_at(tape: &[u8], at: usize, end: usize) -> Option<Scalar>
    requires at_le_end { at ≤ end }
    requires end_in_bounds { end ≤ length tape.now }
    ensures { scanned result (part tape.now at end) ≡ float_of (part tape.now at end) }
{
    if end - at < 9 {
        return None;
    }
    float_of(u64_at(tape, at + 1))
}

// The magnitude and the exponent of the decimal whose node stands at a place.
pub fn magnitude_of(tape: &[u8], at: usize) -> u64
    requires { at + 14 ≤ length tape.now }
    ensures { result ≡ le_number 8 (drop (at + 2) tape.now) }
{
    u64_at(tape, at + 2)
}

pub fn exponent_of(tape: &[u8], at: usize) -> i32
    requires { at + 14 ≤ length tape.now }
    ensures { result ≡ signed 32 (le_number 4 (drop (at + 10) tape.now)) }
{
    signed32(u32_at(tape, at + 10))
}

fn decimal_at(tape: &[u8], at: usize, end: usize) -> Option<Scalar>
    requires at_le_end { at ≤ end }
    requires end_in_bounds { end ≤ length tape.now }
    ensures { scanned result (part tape.now at end) ≡ decimal_of (part tape.now at end) }
{
    if end - at < 14 {
        return None;
    }
    let s = tape[at + 1];
    if 1 < s {
        return None;
    }
    let m = magnitude_of(tape, at);
    let e = exponent_of(tape, at);
    Some(Scalar::Decimal(s == 1, m, e))
}

// The fields of the timestamp whose node stands at a place.
pub fn timestamp_of(tape: &[u8], at: usize) -> Timestamp
    requires { at + 16 ≤ length tape.now }
    ensures { result ≡ timestamp_as (drop at tape.now) }
{
    let year = u16_at(tape, at + 2) as u16;
    let offset = signed16(u16_at(tape, at + 9));
    let fraction = u32_at(tape, at + 12) as u32;
    Timestamp {
        precision: tape[at + 1],
        year,
        month: tape[at + 4],
        day: tape[at + 5],
        hour: tape[at + 6],
        minute: tape[at + 7],
        second: tape[at + 8],
        offset,
        digits: tape[at + 11],
        fraction,
    }
}

fn timestamp_at(tape: &[u8], at: usize, end: usize) -> Option<Scalar>
    requires at_le_end { at ≤ end }
    requires end_in_bounds { end ≤ length tape.now }
    ensures { scanned result (part tape.now at end) ≡ timestamp_of (part tape.now at end) }
{
    if end - at < 16 {
        return None;
    }
    Some(Scalar::Timestamp(timestamp_of(tape, at)))
}

pub fn sym_at(tape: &[u8], at: usize, end: usize) -> Option<Symbol>
    requires at_le_end { at ≤ end }
    requires end_in_bounds { end ≤ length tape.now }
    ensures { meant_sym result (part tape.now at end) ≡ sym_of (part tape.now at end) }
{
    if at == end {
        return None;
    }
    match tape[at] {
        6 => Some(Symbol::Text(length_at(tape, at, end)?)),
        7 => {
            if end - at < 5 {
                return None;
            }
            Some(Symbol::Id(u32_at(tape, at + 1) as u32))
        }
        _ => None,
    }
}

fn symbol_at(tape: &[u8], at: usize, end: usize) -> Option<Scalar>
    requires at_le_end { at ≤ end }
    requires end_in_bounds { end ≤ length tape.now }
    ensures { scanned result (part tape.now at end) ≡ symbol_of (part tape.now at end) }
{
    match sym_at(tape, at, end)? {
        Symbol::Text(n) => Some(Scalar::Symbol(n)),
        Symbol::Id(i) => Some(Scalar::Id(i)),
    }
}

pub fn scalar_at(tape: &[u8], at: usize, end: usize) -> Option<Scalar>
    requires at_le_end { at ≤ end }
    requires end_in_bounds { end ≤ length tape.now }
    ensures { scanned result (part tape.now at end) ≡ scalar_of (part tape.now at end) }
{
    if at == end {
        return None;
    }
    match tape[at] {
        0 => null_at(tape, at, end),
        1 => bool_at(tape, at, end),
        2 => int_at(tape, at, end),
        3 => float_at(tape, at, end),
        4 => decimal_at(tape, at, end),
        5 => timestamp_at(tape, at, end),
        6 | 7 => symbol_at(tape, at, end),
        8 => Some(Scalar::String(length_at(tape, at, end)?)),
        9 => Some(Scalar::Clob(length_at(tape, at, end)?)),
        15 => Some(Scalar::Blob(length_at(tape, at, end)?)),
        _ => None,
    }
}

// How many bytes a scalar takes.
pub fn size_of(s: Scalar) -> usize
    requires { size_of s < 18446744073709551616 }
    ensures { result ≡ size_of s }
{
    match s {
        Scalar::Null(_) | Scalar::Bool(_) => 2,
        Scalar::Int(_) | Scalar::Float(_) => 9,
        Scalar::Decimal(_, _, _) => 14,
        Scalar::Timestamp(_) => 16,
        Scalar::Id(_) => 5,
        Scalar::Symbol(n) | Scalar::String(n) | Scalar::Clob(n) | Scalar::Blob(n) => 5 + n,
    }
}

// ---- what stands before a value

fn sym_end(tape: &[u8], at: usize, end: usize) -> Option<usize>
    requires at_le_end { at ≤ end }
    requires end_in_bounds { end ≤ length tape.now }
    ensures { result ≡ place_of at (sym_of (part tape.now at end)) }
{
    if end - at < 5 {
        return None;
    }
    match tape[at] {
        6 => Some(at + 5 + length_at(tape, at, end)?),
        7 => Some(at + 5),
        _ => None,
    }
}

// Behind n symbols.
fn syms_end(tape: &[u8], at: usize, end: usize, n: u8) -> Option<usize>
    requires at_le_end { at ≤ end }
    requires end_in_bounds { end ≤ length tape.now }
    ensures { result ≡ place_of at (syms_of n (part tape.now at end)) }
{
    let mut p = at;
    for _ in 0..n {
        p = sym_end(tape, p, end)?;
    }
    Some(p)
}

pub fn notes_end(tape: &[u8], at: usize, end: usize) -> Option<usize>
    requires at_le_end { at ≤ end }
    requires end_in_bounds { end ≤ length tape.now }
    ensures { result ≡ place_of at (notes_of (part tape.now at end)) }
{
    if at == end || tape[at] != 13 {
        return Some(at);
    }
    if end - at < 2 {
        return None;
    }
    let n = tape[at + 1];
    if n < 1 || 16 < n {
        return None;
    }
    syms_end(tape, at + 2, end, n)
}

pub fn name_end(tape: &[u8], at: usize, end: usize, frame: Frame) -> Option<usize>
    requires at_le_end { at ≤ end }
    requires end_in_bounds { end ≤ length tape.now }
    ensures { result ≡ place_of at (name_of frame (part tape.now at end)) }
{
    match frame {
        Frame::Struct => sym_end(tape, at, end),
        Frame::Top | Frame::List | Frame::Sexp => Some(at),
    }
}

// ---- children of nodes without a problem

// Where the value of the child at a place stands: behind its name and its annotations.
pub fn value_place(tape: &[u8], at: usize, end: usize, frame: Frame) -> usize
    requires at_le_end { at ≤ end }
    requires end_in_bounds { end ≤ length tape.now }
    ensures { result ≡ at + size_taken (head_of frame (part tape.now at end)) }
{
    let Some(notes) = name_end(tape, at, end, frame) else {
        return at;
    };
    let Some(value) = notes_end(tape, notes, end) else {
        return at;
    };
    value
}

// How many bytes the value at a place takes.
pub fn value_size(tape: &[u8], at: usize, end: usize) -> usize
    requires at_le_end { at ≤ end }
    requires end_in_bounds { end ≤ length tape.now }
    requires nonzero { 0 < size_at (part tape.now at end) }
    ensures { result ≡ size_at (part tape.now at end) }
{
    match tape[at] {
        0 | 1 => 2,
        2 | 3 => 9,
        4 => 14,
        5 => 16,
        7 => 5,
        14 => 1,
        _ => 5 + u32_at(tape, at + 1) as usize,
    }
}
