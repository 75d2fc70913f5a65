// UTF-8 checking. The leading one bits of a first byte give the character's length.
#![tactic(auto)]

ghost use Rattle.std.specs.Prelude.{◌≡◌, true, ◌+◌, ◌≤◌, ◌<◌, length, get_or, take, drop};
ghost use Rattle.output.specs.Wrote.{le_bytes};
ghost use Rattle.characters.specs.Utf8.{lead_of, is_cont, is_scalar, ok2, ok3, ok4, char_of, char_at, valid};

const HIGH_BITS: u64 = 0x8080_8080_8080_8080;

// The number of bytes that a first byte announces, 0 for a byte that starts no character: the leading zeros of the inverted byte are the
// leading ones of the byte.
fn lead(b: u8) -> usize
    ensures { result ≡ lead_of b }
{
    let ones = u8::leading_zeros(!b) as usize;
    if ones == 0 {
        return 1;
    }
    if ones == 1 {
        return 0;
    }
    if ones <= 4 {
        return ones;
    }
    0
}

// A byte behind a character's first.
#[tactic(auto, unfolding(crate::specs::Utf8::is_cont))]
fn cont(b: u8) -> bool
    ensures { result ≡ is_cont b }
{
    0x80 <= b && b < 0xC0
}

// A scalar value: no surrogate, nothing past hex 10FFFF.
pub fn is_scalar(v: u32) -> bool
    ensures { result ≡ is_scalar v }
{
    char::from_u32(v).is_some()
}

#[tactic(auto, unfolding(crate::specs::Utf8::ok2))]
fn two(a: u8, b: u8) -> bool
    ensures { result ≡ ok2 a b }
{
    let v = u32::from(a) % 32 * 64 + u32::from(b) % 64;
    cont(b) && 0x80 <= v
}

#[tactic(auto, unfolding(crate::specs::Utf8::ok3))]
fn three(a: u8, b: u8, c: u8) -> bool
    ensures { result ≡ ok3 a b c }
{
    let v = u32::from(a) % 16 * 4096 + u32::from(b) % 64 * 64 + u32::from(c) % 64;
    cont(b) && cont(c) && 0x800 <= v && is_scalar(v)
}

#[tactic(auto, unfolding(crate::specs::Utf8::ok4))]
fn four(a: u8, b: u8, c: u8, d: u8) -> bool
    ensures { result ≡ ok4 a b c d }
{
    let v = u32::from(a) % 8 * 262144
        + u32::from(b) % 64 * 4096
        + u32::from(c) % 64 * 64
        + u32::from(d) % 64;
    cont(b) && cont(c) && cont(d) && 0x1_0000 <= v && is_scalar(v)
}

// The length of the character that starts with these bytes, 0 if none does.
#[tactic(auto, unfolding(crate::specs::Utf8::char_of))]
fn char_of(a: u8, b: u8, c: u8, d: u8) -> usize
    ensures { result ≡ char_of a b c d }
{
    match lead(a) {
        1 => 1,
        2 if two(a, b) => 2,
        3 if three(a, b, c) => 3,
        4 if four(a, b, c, d) => 4,
        _ => 0,
    }
}

// The byte at a place, 0 past the end.
fn byte(s: &[u8], i: usize) -> u8
    ensures { result ≡ get_or s.now i 0 }
{
    s.get(i).copied().unwrap_or(0)
}

// The length of the character at a place of a slice, 0 if none is whole there.
pub fn char_len(s: &[u8], at: usize) -> usize
    requires { at < length s.now }
    ensures { result ≡ char_at s.now at }
{
    let a = s[at];
    if a < 0x80 {
        return 1;
    }
    char_of(a, byte(s, at + 1), byte(s, at + 2), byte(s, at + 3))
}

// Every bit that some of the first m bytes has. There is no way out of the loop, so that the compiler makes it a vector loop.
fn or_first(s: &[u8], m: usize) -> u8
    requires { m ≤ length s.now }
    ensures { result < 0x80 → valid s.now ≡ valid (drop m s.now) }
{
    let mut bits = 0;
    for b in &s[..m] {
        bits |= *b;
    }
    bits
}

// The place behind the words of eight bytes below hex 80 from a place on.
fn ascii_words(s: &[u8], from: usize) -> usize
    requires { from ≤ length s.now }
    ensures { (result ≤ length s.now) × (valid (drop from s.now) ≡ valid (drop result s.now)) }
{
    let words = (s.len() - from) / 8;
    for k in 0..words {
        let i = from + 8 * k;
        if output::word_at(s, i) & HIGH_BITS != 0 {
            return i;
        }
    }
    from + 8 * words
}

// Whether the bytes from a place on are characters, one after the other.
fn valid_chars(s: &[u8], from: usize) -> bool
    requires { from ≤ length s.now }
    ensures { result ≡ valid (drop from s.now) }
{
    let mut i = from;
    // A walk: the step is the character's length.
    while i < s.len() {
        let n = char_len(s, i);
        if n == 0 {
            return false;
        }
        i += n;
    }
    true
}

// The same of eight bytes at least, by words of eight first, and the last eight again.
fn valid_from(s: &[u8], from: usize) -> bool
    requires { (from ≤ length s.now) × (8 ≤ length s.now) }
    ensures { result ≡ valid (drop from s.now) }
{
    let n = s.len();
    let i = ascii_words(s, from);
    if n < i + 8 && output::word_at(s, n - 8) & HIGH_BITS == 0 {
        return true;
    }
    valid_chars(s, i)
}

// Whether the bytes are characters one after the other. Bytes below hex 80 are, and are passed many at a time.
pub fn valid_utf8(s: &[u8]) -> bool
    ensures { result ≡ valid s.now }
{
    let n = s.len();
    if n < 8 {
        return or_first(s, n) < 0x80 || valid_chars(s, 0);
    }
    let m = n / 32 * 32;
    if or_first(s, m) < 0x80 {
        return valid_from(s, m);
    }
    valid_from(s, 0)
}

// The same of n bytes from a place on.
pub fn valid_part(s: &[u8], from: usize, n: usize) -> bool
    requires { from + n ≤ length s.now }
    ensures { result ≡ valid (take n (drop from s.now)) }
{
    let to = from + n;
    valid_utf8(&s[from..to])
}

// The n lowest bytes of a word are ASCII, and so valid.
pub fn is_ascii(x: u64, n: usize) -> bool
    requires { (1 ≤ n) × (n ≤ 8) }
    ensures { result ≡ true → valid (le_bytes n x) ≡ true }
{
    lanes::is_ascii(x, n)
}
