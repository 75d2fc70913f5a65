// The order on accepted tapes.
#![tactic(auto)]

ghost use Rattle.std.specs.Prelude.{◌≡◌, List, ℕ, ◌+◌, ◌-◌, ◌*◌, ◌^◌, ◌<◌, ◌≤◌, not, length, get_or, take, drop};
ghost use Rattle.std.proofs.Math.Option.{none};
ghost use Rattle.std.specs.Float.{binary64};
ghost use Rattle.std.specs.Float.Ieee.{of_bits};
ghost use Rattle.floats.specs.Whole.{most_whole};
ghost use Rattle.floats.specs.Value.{magnitude};
ghost use Rattle.tape.specs.Bytes.{part, le_number, signed};
ghost use Rattle.tape.specs.Tape.{scalar_of, syms_of, name_of, notes_of, head_of, timestamp_as, walk};
ghost use Rattle.std.specs.Ordering.{nat_cmp, ordering_then};
ghost use Rattle.std.specs.Cmp.Lexicographic.{slice_cmp};
ghost use Rattle.order.specs.Order.{integers, options, decimals, fields_of, scalars, syms, nodes, told, compared};
ghost use Rattle.tape.specs.Steps.{size_taken, node_at, size_at};
ghost use Rattle.order.specs.Steps.{Biased, by_sign, scalar_in, Leaf, spread, float_number, number_at, decimal_at, text_at, name_in, syms_in, notes_in, notes_count, notes_start, Symbols, Notes, Named, Headed, SideIs, fronts, ValueAt, Body, valued, Shared, Passed};

use numbers::timestamp::Timestamp;
use std::cmp::Ordering;
use tape::Frame;
use tape::answer::Fault;

// A comparison, and where it ended in both.
#[derive(Clone, Copy)]
pub struct Side {
    pub order: Ordering,
    pub a: usize,
    pub b: usize,
}

// ---- decimals

// Ten times k times m, against n.
fn compare_scaled(m: u64, k: u64, n: u64) -> Ordering
    ensures { result ≡ nat_cmp (m * 10 ^ k) n }
{
    if m == 0 {
        return 0u64.cmp(&n);
    }
    if 20 <= k {
        return Ordering::Greater;
    }
    let p = text_rules::digits::pow10(k as usize);
    m.cmp(&(n / p)).then(0u64.cmp(&(n % p)))
}

// Magnitudes, each with its exponent.
fn compare_shifted(m: u64, x: u64, n: u64, y: u64) -> Ordering
    ensures { result ≡ nat_cmp (m * 10 ^ (x - y)) (n * 10 ^ (y - x)) }
{
    if y <= x {
        return compare_scaled(m, x - y, n);
    }
    compare_scaled(n, y - x, m).reverse()
}

// And with signs.
fn compare_values(s: bool, m: u64, x: u64, t: bool, n: u64, y: u64) -> Ordering
    ensures { result ≡ by_sign s t (m * 10 ^ (x - y)) (n * 10 ^ (y - x)) }
{
    match (s, t) {
        (false, false) => compare_shifted(m, x, n, y),
        (true, true) => compare_shifted(n, y, m, x),
        (true, false) => { if m == 0 { 0u64.cmp(&n) } else { Ordering::Less } }
        (false, true) => { if m == 0 { n.cmp(&0) } else { Ordering::Greater } }
    }
}

fn biased32(e: i32) -> u64
    ensures { Biased 2147483648 e result }
{
    if e < 0 {
        2147483647 - (!e) as u64
    } else {
        2147483648 + e as u64
    }
}

// By value, then by exponent, then negative before positive.
pub fn compare_decimals(s: bool, m: u64, e: i32, t: bool, n: u64, f: i32) -> Ordering
    ensures { result ≡ decimals (s, m, e) (t, n, f) }
{
    let by_value = compare_values(s, m, biased32(e), t, n, biased32(f));
    by_value.then(e.cmp(&f).then(t.cmp(&s)))
}

// ---- bytes

// How many bytes from both places on are equal, of the next `most`: those of whole blocks of four words.
fn equal_blocks(a: &[u8], i: usize, b: &[u8], j: usize, most: usize) -> usize
    requires most_in_bounds { i + most ≤ length a.now }
    requires most_in_bounds_2 { j + most ≤ length b.now }
    ensures { Shared a.now i (i + most) b.now j (j + most) result }
{
    let mut n = 0;
    // a walk: its step is four words
    while 32 <= most - n {
        if output::word_at(a, i + n) != output::word_at(b, j + n) {
            return n;
        }
        if output::word_at(a, i + (n + 8)) != output::word_at(b, j + (n + 8)) {
            return n;
        }
        if output::word_at(a, i + (n + 16)) != output::word_at(b, j + (n + 16)) {
            return n;
        }
        if output::word_at(a, i + (n + 24)) != output::word_at(b, j + (n + 24)) {
            return n;
        }
        n += 32;
    }
    n
}

// And then what is left, byte by byte.
fn equal_bytes(a: &[u8], i: usize, ea: usize, b: &[u8], j: usize, eb: usize) -> usize
    requires i_le_ea { i ≤ ea }
    requires ea_in_bounds { ea ≤ length a.now }
    requires j_le_eb { j ≤ eb }
    requires eb_in_bounds { eb ≤ length b.now }
    ensures { Shared a.now i ea b.now j eb result }
{
    let most = (ea - i).min(eb - j);
    for n in equal_blocks(a, i, b, j, most)..most {
        if a[i + n] != b[j + n] {
            return n;
        }
    }
    most
}

// How many bytes are equal from i and j on, to ea and eb: what is left of the n from x and y on, if these reach there, else they are counted.
fn known_on(
    a: &[u8],
    i: usize,
    ea: usize,
    b: &[u8],
    j: usize,
    eb: usize,
    x: usize,
    y: usize,
    n: usize,
) -> usize
    requires i_le_ea { i ≤ ea }
    requires ea_in_bounds { ea ≤ length a.now }
    requires j_le_eb { j ≤ eb }
    requires eb_in_bounds { eb ≤ length b.now }
    requires x_le_i { x ≤ i }
    requires y_le_j { y ≤ j }
    requires a_value { take n (drop x a.now) ≡ take n (drop y b.now) }
    ensures { Shared a.now i ea b.now j eb result }
{
    let u = i - x;
    if u == j - y {
        if u <= n {
            if n - u <= ea - i {
                if n - u <= eb - j {
                    return n - u;
                }
            }
        }
    }
    equal_bytes(a, i, ea, b, j, eb)
}

// The first `known` bytes are equal: where these are all of the first text, the lengths decide.
fn compare_bytes(s: &[u8], t: &[u8], known: usize) -> Ordering
    requires { Shared s.now 0 (length s.now) t.now 0 (length t.now) known }
    ensures { result ≡ slice_cmp nat_cmp s.now t.now }
{
    if known == s.len() {
        return known.cmp(&t.len());
    }
    s[known..].cmp(&t[known..])
}

// ---- the contents of scalars of one kind, straight from the tapes

// The number of a whole number in the order of floats: negative ones, from the least to -0, stand before 0.
fn signed_number(neg: bool, n: u64) -> u64
    requires { n ≤ most_whole }
    ensures { result ≡ spread 1 neg n }
{
    if neg {
        return 9007199254740993 - n;
    }
    9007199254740994 + n
}

// Of bits that are no whole number's.
fn odd_number(b: u64) -> u64
    requires { none ≡ magnitude (of_bits binary64 b) }
    ensures { result ≡ float_number (of_bits binary64 b) }
{
    let m = b % 0x8000_0000_0000_0000;
    if m < 0x7FF0_0000_0000_0000 {
        return signed_number(0x8000_0000_0000_0000 <= b, 0);
    }
    if 0x7FF0_0000_0000_0000 < m {
        return 18014398509481988;
    }
    if 0x8000_0000_0000_0000 <= b {
        return 0;
    }
    18014398509481987
}

// A float's number in the order of floats, from its bits.
fn float_number(b: u64) -> u64
    ensures { result ≡ float_number (of_bits binary64 b) }
{
    match floats::bits::magnitude_of(b) {
        Some(n) => signed_number(0x8000_0000_0000_0000 <= b, n),
        None => odd_number(b),
    }
}

fn compare_byte(a: &[u8], p: usize, b: &[u8], q: usize) -> Ordering
    requires p_in_bounds { p + 2 ≤ length a.now }
    requires q_in_bounds { q + 2 ≤ length b.now }
    ensures { result ≡ nat_cmp (get_or a.now (p + 1) 0) (get_or b.now (q + 1) 0) }
{
    a[p + 1].cmp(&b[q + 1])
}

fn compare_int(a: &[u8], p: usize, b: &[u8], q: usize) -> Ordering
    requires p_in_bounds { p + 9 ≤ length a.now }
    requires q_in_bounds { q + 9 ≤ length b.now }
    ensures { result ≡ integers (signed 64 (number_at a.now p 8 1)) (signed 64 (number_at b.now q 8 1)) }
{
    tape::int_of(a, p).cmp(&tape::int_of(b, q))
}

fn compare_float(a: &[u8], p: usize, b: &[u8], q: usize) -> Ordering
    requires p_in_bounds { p + 9 ≤ length a.now }
    requires q_in_bounds { q + 9 ≤ length b.now }
    ensures { result ≡ nat_cmp (float_number (of_bits binary64 (number_at a.now p 8 1))) (float_number (of_bits binary64 (number_at b.now q 8 1))) }
{
    let x = float_number(tape::u64_at(a, p + 1));
    let y = float_number(tape::u64_at(b, q + 1));
    x.cmp(&y)
}

fn compare_decimal(a: &[u8], p: usize, b: &[u8], q: usize) -> Ordering
    requires p_in_bounds { p + 14 ≤ length a.now }
    requires q_in_bounds { q + 14 ≤ length b.now }
    ensures { result ≡ decimals (decimal_at a.now p) (decimal_at b.now q) }
{
    let m = tape::magnitude_of(a, p);
    let e = tape::exponent_of(a, p);
    let n = tape::magnitude_of(b, q);
    let f = tape::exponent_of(b, q);
    compare_decimals(a[p + 1] == 1, m, e, b[q + 1] == 1, n, f)
}

fn compare_times(x: Timestamp, y: Timestamp) -> Ordering
    ensures { result ≡ slice_cmp integers (fields_of x) (fields_of y) }
{
    let late = x
        .offset
        .cmp(&y.offset)
        .then(x.digits.cmp(&y.digits).then(x.fraction.cmp(&y.fraction)));
    let of_day = x.hour.cmp(&y.hour).then(
        x.minute
            .cmp(&y.minute)
            .then(x.second.cmp(&y.second).then(late)),
    );
    let of_month = x.month.cmp(&y.month).then(x.day.cmp(&y.day).then(of_day));
    x.precision
        .cmp(&y.precision)
        .then(x.year.cmp(&y.year).then(of_month))
}

fn compare_timestamp(a: &[u8], p: usize, b: &[u8], q: usize) -> Ordering
    requires timestamp_size_in_bounds { p + 16 ≤ length a.now }
    requires timestamp_size_in_bounds_2 { q + 16 ≤ length b.now }
    ensures { result ≡ slice_cmp integers (fields_of (timestamp_as (drop p a.now))) (fields_of (timestamp_as (drop q b.now))) }
{
    let x = tape::timestamp_of(a, p);
    let y = tape::timestamp_of(b, q);
    compare_times(x, y)
}

fn compare_id(a: &[u8], p: usize, b: &[u8], q: usize) -> Ordering
    requires p_in_bounds { p + 5 ≤ length a.now }
    requires q_in_bounds { q + 5 ≤ length b.now }
    ensures { result ≡ nat_cmp (number_at a.now p 4 1) (number_at b.now q 4 1) }
{
    tape::u32_at(a, p + 1).cmp(&tape::u32_at(b, q + 1))
}

// From x and y on, before them, n bytes are equal.
fn compare_text(a: &[u8], p: usize, b: &[u8], q: usize, x: usize, y: usize, n: usize) -> Ordering
    requires p_in_bounds { p + 5 + number_at a.now p 4 1 ≤ length a.now }
    requires q_in_bounds { q + 5 + number_at b.now q 4 1 ≤ length b.now }
    requires x_le_p { x ≤ p }
    requires y_le_q { y ≤ q }
    requires a_value { take n (drop x a.now) ≡ take n (drop y b.now) }
    ensures { result ≡ slice_cmp nat_cmp (text_at a.now p) (text_at b.now q) }
{
    let i = p + 5;
    let j = q + 5;
    let va = i + tape::u32_at(a, p + 1) as usize;
    let vb = j + tape::u32_at(b, q + 1) as usize;
    let m = known_on(a, i, va, b, j, vb, x, y, n);
    compare_bytes(&a[i..va], &b[j..vb], m)
}

// Of one kind. From x and y on, before them, n bytes are equal.
fn compare_leaf(
    a: &[u8],
    p: usize,
    ea: usize,
    b: &[u8],
    q: usize,
    eb: usize,
    x: usize,
    y: usize,
    n: usize,
) -> Ordering
    requires leaf { Leaf a.now p ea }
    requires leaf_2 { Leaf b.now q eb }
    requires p_value { get_or a.now p 0 ≡ get_or b.now q 0 }
    requires x_le_p { x ≤ p }
    requires y_le_q { y ≤ q }
    requires a_value { take n (drop x a.now) ≡ take n (drop y b.now) }
    ensures { result ≡ scalars (scalar_in (part a.now p ea)) (scalar_in (part b.now q eb)) }
{
    let k = a[p];
    if k <= 1 {
        return compare_byte(a, p, b, q);
    }
    if k == 2 {
        return compare_int(a, p, b, q);
    }
    if k == 3 {
        return compare_float(a, p, b, q);
    }
    if k == 4 {
        return compare_decimal(a, p, b, q);
    }
    if k == 5 {
        return compare_timestamp(a, p, b, q);
    }
    if k == 7 {
        return compare_id(a, p, b, q);
    }
    compare_text(a, p, b, q, x, y, n)
}

// By kind, and then by contents.
fn compare_scalar(a: &[u8], p: usize, ea: usize, b: &[u8], q: usize, eb: usize) -> Ordering
    requires leaf { Leaf a.now p ea }
    requires leaf_2 { Leaf b.now q eb }
    ensures { result ≡ scalars (scalar_in (part a.now p ea)) (scalar_in (part b.now q eb)) }
{
    let by_kind = a[p].cmp(&b[q]);
    if by_kind.is_ne() {
        return by_kind;
    }
    compare_leaf(a, p, ea, b, q, eb, p, q, 0)
}

// ---- names and annotations

// Where the scalar at a place ends.
fn scalar_end(tape: &[u8], at: usize, end: usize) -> usize
    requires { Leaf tape.now at end }
    ensures { result ≡ at + size_taken (scalar_of (part tape.now at end)) }
{
    let Some(s) = tape::scalar_at(tape, at, end) else {
        return at;
    };
    at + tape::size_of(s)
}

fn compare_names(
    a: &[u8],
    i: usize,
    ea: usize,
    b: &[u8],
    j: usize,
    eb: usize,
    frame: Frame,
) -> Ordering
    requires named { Named frame a.now i ea }
    requires named_2 { Named frame b.now j eb }
    ensures { result ≡ options syms (name_in frame (part a.now i ea)) (name_in frame (part b.now j eb)) }
{
    match frame {
        Frame::Struct => compare_scalar(a, i, ea, b, j, eb),
        _ => Ordering::Equal,
    }
}

// Where the name of the child at a place ends.
fn name_place(tape: &[u8], at: usize, end: usize, frame: Frame) -> usize
    requires { Named frame tape.now at end }
    ensures { result ≡ at + size_taken (name_of frame (part tape.now at end)) }
{
    match frame {
        Frame::Struct => scalar_end(tape, at, end),
        _ => at,
    }
}

// So many symbols.
fn compare_syms(
    a: &[u8],
    i: usize,
    ea: usize,
    na: u8,
    b: &[u8],
    j: usize,
    eb: usize,
    nb: u8,
) -> Side
    requires symbols { Symbols na a.now i ea }
    requires symbols_2 { Symbols nb b.now j eb }
    ensures { SideIs (slice_cmp syms (syms_in na (part a.now i ea)) (syms_in nb (part b.now j eb))) (i + size_taken (syms_of na (part a.now i ea))) (j + size_taken (syms_of nb (part b.now j eb))) result }
{
    let mut x = i;
    let mut y = j;
    for k in 0..na.min(nb) {
        let w = compare_scalar(a, x, ea, b, y, eb);
        if w.is_ne() {
            return Side {
                order: w,
                a: x,
                b: y,
            };
        }
        x = scalar_end(a, x, ea);
        y = scalar_end(b, y, eb);
    }
    Side {
        order: na.cmp(&nb),
        a: x,
        b: y,
    }
}

fn notes_count(tape: &[u8], at: usize, end: usize) -> u8
    requires { Notes tape.now at end }
    ensures { result ≡ notes_count tape.now at }
{
    if tape[at] == 13 {
        return tape[at + 1];
    }
    0
}

fn notes_start(tape: &[u8], at: usize, end: usize) -> usize
    requires { Notes tape.now at end }
    ensures { result ≡ notes_start tape.now at }
{
    if tape[at] == 13 {
        return at + 2;
    }
    at
}

fn compare_notes(a: &[u8], i: usize, ea: usize, b: &[u8], j: usize, eb: usize) -> Side
    requires notes { Notes a.now i ea }
    requires notes_2 { Notes b.now j eb }
    ensures { SideIs (slice_cmp syms (notes_in (part a.now i ea)) (notes_in (part b.now j eb))) (i + size_taken (notes_of (part a.now i ea))) (j + size_taken (notes_of (part b.now j eb))) result }
{
    let c = notes_count(a, i, ea);
    let x = notes_start(a, i, ea);
    let d = notes_count(b, j, eb);
    let y = notes_start(b, j, eb);
    compare_syms(a, x, ea, c, b, y, eb, d)
}

// What stands before two values: their names, the kind bytes behind them, and their annotations.
fn compare_fronts(
    a: &[u8],
    i: usize,
    ea: usize,
    b: &[u8],
    j: usize,
    eb: usize,
    frame: Frame,
) -> Side
    requires headed { Headed frame a.now i ea }
    requires headed_2 { Headed frame b.now j eb }
    ensures { SideIs (fronts frame a.now i ea b.now j eb) (i + size_taken (head_of frame (part a.now i ea))) (j + size_taken (head_of frame (part b.now j eb))) result }
{
    let n = compare_names(a, i, ea, b, j, eb, frame);
    let p = name_place(a, i, ea, frame);
    let q = name_place(b, j, eb, frame);
    let k = a[p].cmp(&b[q]);
    let s = compare_notes(a, p, ea, b, q, eb);
    Side {
        order: n.then(k.then(s.order)),
        ..s
    }
}

// ---- values and the nodes of a body

// Behind the children of the body at a place that lie within the next `known` bytes; what stands in them is not looked at.
fn pass_known(tape: &[u8], at: usize, end: usize, frame: Frame, depth: usize, known: usize) -> usize
    requires body { Body depth frame tape.now at end }
    requires known_bound { at + known ≤ end }
    ensures { Passed depth frame tape.now at end known result }
{
    if depth == 0 {
        return at;
    }
    let stop = at + known;
    let mut x = at;
    // a walk: its step is a node's length
    while x < stop {
        let p = tape::value_place(tape, x, end, frame);
        let y = p + tape::value_size(tape, p, end);
        if stop < y {
            return x;
        }
        x = y;
    }
    x
}

// Two values, in which `depth` more bodies may be opened. From x and y on, before them, n bytes are equal.
#[cycle(compare_nodes_compare_value)]
fn compare_value(
    a: &[u8],
    p: usize,
    ea: usize,
    b: &[u8],
    q: usize,
    eb: usize,
    depth: usize,
    x: usize,
    y: usize,
    n: usize,
) -> Ordering
    requires value_at { ValueAt depth a.now p ea }
    requires value_at_2 { ValueAt depth b.now q eb }
    requires x_le_p { x ≤ p }
    requires y_le_q { y ≤ q }
    requires a_value { take n (drop x a.now) ≡ take n (drop y b.now) }
    ensures { result ≡ valued (node_at depth (part a.now p ea)) (node_at depth (part b.now q eb)) }
{
    let k = a[p];
    let by_kind = k.cmp(&b[q]);
    if by_kind.is_ne() {
        return by_kind;
    }
    if k < 10 {
        return compare_leaf(a, p, ea, b, q, eb, x, y, n);
    }
    if k == 14 {
        return Ordering::Equal;
    }
    if k == 15 {
        return compare_leaf(a, p, ea, b, q, eb, x, y, n);
    }
    let f = tape::check::frame_of(k);
    let i = p + 5;
    let j = q + 5;
    let va = i + tape::u32_at(a, p + 1) as usize;
    let vb = j + tape::u32_at(b, q + 1) as usize;
    let m = known_on(a, i, va, b, j, vb, x, y, n);
    compare_nodes(a, i, va, b, j, vb, f, depth, m)
}

// The nodes of two bodies of one frame, side by side, while there is no difference. Of their bytes, the first `known` are equal: the children in
// these are passed without a look. (The next child then has a difference in it, or ends a body.)
#[cycle(compare_nodes_compare_value)]
fn compare_nodes(
    a: &[u8],
    i: usize,
    ea: usize,
    b: &[u8],
    j: usize,
    eb: usize,
    frame: Frame,
    depth: usize,
    known: usize,
) -> Ordering
    requires body { Body depth frame a.now i ea }
    requires body_2 { Body depth frame b.now j eb }
    requires shared { Shared a.now i ea b.now j eb known }
    ensures { result ≡ nodes (walk depth frame (part a.now i ea)).0 (walk depth frame (part b.now j eb)).0 }
{
    if depth == 0 {
        return Ordering::Equal;
    }
    let mut x = pass_known(a, i, ea, frame, depth, known);
    let mut y = j + (x - i);
    let mut n = known - (x - i);
    // a walk: its step is a node's length
    while x < ea {
        if eb <= y {
            return Ordering::Greater;
        }
        let f = compare_fronts(a, x, ea, b, y, eb, frame);
        if f.order.is_ne() {
            return f.order;
        }
        let p = f.a;
        let q = f.b;
        let v = compare_value(a, p, ea, b, q, eb, depth - 1, x, y, n);
        if v.is_ne() {
            return v;
        }
        x = p + tape::value_size(a, p, ea);
        y = q + tape::value_size(b, q, eb);
        n = 0;
    }
    if y < eb {
        return Ordering::Less;
    }
    Ordering::Equal
}

// ---- whole tapes

// The order of two tapes; or the refusal of the first that is refused.
pub fn compare(a: &[u8], b: &[u8]) -> Result<Ordering, Fault>
    ensures { told result ≡ compared a.now b.now }
{
    tape::check::check_tape(a)?;
    tape::check::check_tape(b)?;
    let ea = a.len() - 8;
    let eb = b.len() - 8;
    let n = equal_bytes(a, 0, ea, b, 0, eb);
    if n == ea && n == eb {
        return Ok(Ordering::Equal);
    }
    Ok(compare_nodes(a, 0, ea, b, 0, eb, Frame::Top, 65, n))
}
