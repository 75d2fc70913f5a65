// The output layer: bytes into a lent slice at a position. A byte past the slice's end is counted and not stored, so that the
// same calls over a slice of no bytes measure. A position stops at LIMIT, which is above the length of every slice.
// On the frequent paths room is asked for by `<`: of that test the compiler lays the true side next, of `<=` between two variables the other
// (docs/BENCHMARKS.md).
#![tactic(auto)]

ghost use Rattle.std.specs.Prelude.{◌≡◌, [], ◌∷◌, ◌+◌, ◌-◌, ◌≤◌, min, length, take, drop, replicate};
ghost use Rattle.std.proofs.lemmas.List.Edits.{sets};
ghost use Rattle.output.specs.Wrote.{Wrote, limit, le_bytes};

const LIMIT: usize = 9223372036854775808;

// One byte.
pub fn put(buf: &mut [u8], pos: usize, x: u8) -> usize
    ensures { Wrote buf.old buf.new pos result (x ∷ []) }
{
    if pos < buf.len() {
        buf[pos] = x;
        return pos + 1;
    }
    ahead(pos, 1)
}

// Two bytes.
pub fn put_two(buf: &mut [u8], pos: usize, x: u8, y: u8) -> usize
    ensures { Wrote buf.old buf.new pos result (x ∷ y ∷ []) }
{
    if pos < buf.len().saturating_sub(1) {
        buf[pos] = x;
        buf[pos + 1] = y;
        return pos + 2;
    }
    let p = put(buf, pos, x);
    put(buf, p, y)
}

// The N lowest bytes of w, eight at most, for which there is room: one store.
pub fn store<const N: usize>(buf: &mut [u8], pos: usize, w: u64)
    requires width { N ≤ 8 }
    requires room { pos + N ≤ length buf.old }
    ensures { buf.new ≡ sets buf.old pos (le_bytes N w) }
{
    buf[pos..pos + N].copy_from_slice(&w.to_le_bytes()[..N]);
}

// Eight bytes of s from a place on, as one number, the lowest first: one load.
pub fn word_at(s: &[u8], from: usize) -> u64
    requires { from + 8 ≤ length s.now }
    ensures { le_bytes 8 result ≡ take 8 (drop from s.now) }
{
    let mut bytes = [0; 8];
    bytes.copy_from_slice(&s[from..from + 8]);
    u64::from_le_bytes(bytes)
}

// N bytes of s from a place on, for which there is room. They pass through an array: the compiler does not know that the two slices lie apart.
fn copy<const N: usize>(buf: &mut [u8], pos: usize, s: &[u8], from: usize)
    requires pos_in_bounds { pos + N ≤ length buf.old }
    requires from_in_bounds { from + N ≤ length s.now }
    ensures { buf.new ≡ sets buf.old pos (take N (drop from s.now)) }
{
    let mut bytes = [0; N];
    bytes.copy_from_slice(&s[from..from + N]);
    buf[pos..pos + N].copy_from_slice(&bytes);
}

// The bytes of s, N at least and twice as many at most, for which there is room: two stores that overlap.
fn copy_ends<const N: usize>(buf: &mut [u8], pos: usize, s: &[u8])
    requires least { N ≤ length s.now }
    requires most { length s.now ≤ N + N }
    requires room { pos + length s.now ≤ length buf.old }
    ensures { buf.new ≡ sets buf.old pos s.now }
{
    let last = s.len() - N;
    copy::<N>(buf, pos, s, 0);
    copy::<N>(buf, pos + last, s, last);
}

// The bytes of s, 16 at least, for which there is room: sixteen at a time, and the last sixteen again.
fn copy_long(buf: &mut [u8], pos: usize, s: &[u8])
    requires s_in_bounds { pos + length s.now ≤ length buf.old }
    requires in_bounds { 16 ≤ length s.now }
    ensures { buf.new ≡ sets buf.old pos s.now }
{
    for k in 0..(s.len() - 1) / 16 {
        copy::<16>(buf, pos + 16 * k, s, 16 * k);
    }
    let last = s.len() - 16;
    copy::<16>(buf, pos + last, s, last);
}

// The bytes of s, for which there is room. Short texts, as most are, are two stores that overlap.
fn copy_at(buf: &mut [u8], pos: usize, s: &[u8])
    requires { pos + length s.now ≤ length buf.old }
    ensures { buf.new ≡ sets buf.old pos s.now }
{
    match s.len() {
        0 => {}
        1 => buf[pos] = s[0],
        2..=3 => copy_ends::<2>(buf, pos, s),
        4..=7 => copy_ends::<4>(buf, pos, s),
        8..=16 => copy_ends::<8>(buf, pos, s),
        _ => copy_long(buf, pos, s),
    }
}

// A position past LIMIT is LIMIT: what a loop that may write nothing begins with.
pub fn bounded(pos: usize) -> usize
    ensures { result ≡ min pos limit }
{
    if pos < LIMIT { pos } else { LIMIT }
}

// A position n bytes on.
pub fn ahead(pos: usize, n: usize) -> usize
    ensures { result ≡ min (pos + n) limit }
{
    pos.saturating_add(n).min(LIMIT)
}

// The bytes of s as far as there is room; the rest is passed at once.
pub fn put_bytes(buf: &mut [u8], pos: usize, s: &[u8]) -> usize
    ensures { Wrote buf.old buf.new pos result s.now }
{
    if pos < buf.len() {
        let n = s.len().min(buf.len() - pos);
        copy_at(buf, pos, &s[..n]);
    }
    ahead(pos, s.len())
}

// The byte x, n times, as far as there is room; the rest is passed at once. Out of line, so that a short run saves no registers.
#[inline(never)]
fn repeat_long(buf: &mut [u8], pos: usize, x: u8, n: usize) -> usize
    ensures { Wrote buf.old buf.new pos result (replicate n x) }
{
    let end = ahead(pos, n);
    if pos < buf.len() {
        let last = end.min(buf.len());
        buf[pos..last].fill(x);
    }
    end
}

// The byte x, n times. Two are the most frequent; eight at most are the bytes of a word.
pub fn put_repeated(buf: &mut [u8], pos: usize, x: u8, n: usize) -> usize
    ensures { Wrote buf.old buf.new pos result (replicate n x) }
{
    if n == 2 {
        return put_two(buf, pos, x, x);
    }
    if n <= 8 {
        return put_le(buf, pos, u64::from(x) * 0x0101_0101_0101_0101, n);
    }
    repeat_long(buf, pos, x, n)
}

// The n lowest bytes of w, eight at most, for which there is room: two stores that overlap.
pub fn store_low(buf: &mut [u8], pos: usize, w: u64, n: usize)
    requires n_bound { n ≤ 8 }
    requires n_in_bounds { pos + n ≤ length buf.old }
    ensures { buf.new ≡ sets buf.old pos (le_bytes n w) }
{
    if 4 <= n {
        store::<4>(buf, pos, w);
        store::<4>(buf, pos + (n - 4), w >> (8 * (n - 4)));
        return;
    }
    if 2 <= n {
        store::<2>(buf, pos, w);
        store::<2>(buf, pos + (n - 2), w >> (8 * (n - 2)));
        return;
    }
    if n == 1 {
        buf[pos] = (w % 256) as u8;
    }
}

// The last c of a word's eight bytes, for which there is room: two stores that overlap.
pub fn store_last(buf: &mut [u8], p: usize, w: u64, c: usize)
    requires { (c ≤ 8) × (p + c ≤ length buf.old) }
    ensures { buf.new ≡ sets buf.old p (drop (8 - c) (le_bytes 8 w)) }
{
    if 4 <= c {
        store::<4>(buf, p, w >> (64 - 8 * c));
        store::<4>(buf, p + (c - 4), w / 4294967296);
        return;
    }
    if 2 <= c {
        store::<2>(buf, p, w >> (64 - 8 * c));
        store::<2>(buf, p + (c - 2), w / 281474976710656);
        return;
    }
    if c == 1 {
        buf[p] = (w / 72057594037927936) as u8;
    }
}

// The lowest bytes of n as far as there is room.
fn le_clipped(buf: &mut [u8], pos: usize, n: u64, width: usize) -> usize
    ensures { Wrote buf.old buf.new pos result (le_bytes width n) }
{
    if buf.len() <= pos {
        return ahead(pos, width);
    }
    let mut p = pos;
    let mut m = n;
    for _ in 0..width {
        p = put(buf, p, (m % 256) as u8);
        m /= 256;
    }
    p
}

// The lowest bytes of n, as many as the width says, the lowest first. Up to eight are two stores at most, where there is
// room for eight.
pub fn put_le(buf: &mut [u8], pos: usize, n: u64, width: usize) -> usize
    ensures { Wrote buf.old buf.new pos result (le_bytes width n) }
{
    if width < 9 && pos < buf.len().saturating_sub(7) {
        store_low(buf, pos, n, width);
        return pos + width;
    }
    le_clipped(buf, pos, n, width)
}

// Every byte zero.
pub fn zero(buf: &mut [u8])
    ensures { buf.new ≡ replicate (length buf.old) 0 }
{
    buf.fill(0);
}
