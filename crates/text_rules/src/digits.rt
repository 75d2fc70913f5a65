// Whole numbers in base ten.
ghost use Rattle.std.specs.Prelude.{◌≡◌, ◌++◌, ◌+◌, ◌-◌, ◌/◌, ◌%◌, ◌^◌, ◌≤◌, ◌<◌, length};
ghost use Rattle.std.proofs.lemmas.List.Edits.{sets};
ghost use Rattle.output.specs.Wrote.{Wrote, limit, le_bytes};
ghost use Rattle.text_rules.specs.Digits.{digit, pad, count, digits, zero_padded, is_digit};
ghost use Rattle.text_rules.specs.DigitSteps.{Led, Ahead, RunJoined, Zeros};
// Passed on to the crates above: the last digits of a word are its last bytes.
pub use output::store_last;

// Ten to the power k: the compiler makes a table of the arms, where `pow` is a loop of products.
pub fn pow10(k: usize) -> u64
    requires { k < 20 }
    ensures { (result ≡ 10 ^ k) × (0 < result) }
{
    match k {
        0 => 1,
        1 => 10,
        2 => 100,
        3 => 1000,
        4 => 10000,
        5 => 100000,
        6 => 1000000,
        7 => 10000000,
        8 => 100000000,
        9 => 1000000000,
        10 => 10000000000,
        11 => 100000000000,
        12 => 1000000000000,
        13 => 10000000000000,
        14 => 100000000000000,
        15 => 1000000000000000,
        16 => 10000000000000000,
        17 => 100000000000000000,
        18 => 1000000000000000000,
        _ => 10000000000000000000,
    }
}

// How many digits n has: one for 0. The number of its bits tells it but for one comparison, as 1233 / 4096 is about the logarithm of 2.
pub fn digit_count(n: u64) -> usize
    ensures { (result ≡ count 19 n) × (1 ≤ result) × (result ≤ 20) }
{
    let bits = 64 - u64::leading_zeros(n | 1) as usize;
    let t = bits * 1233 / 4096;
    if n < pow10(t) { t.max(1) } else { t + 1 }
}

// The digit of a number below ten.
fn digit_of(x: u32) -> u8
    requires { x < 10 }
    ensures { result ≡ digit x }
{
    b'0' + x as u8
}

// ---- eight digits in one word, a byte each, the first lowest (`lanes::digit_words`)

// The digit 0 eight times.
const ZEROS: u64 = 0x3030303030303030;

// How many of eight digits, as numbers, are zeros in front of the others; the last one counts as another. Without branches.
fn zeros8(d: u64) -> usize
    ensures { Zeros d result }
{
    (u64::trailing_zeros(d | 0x0100000000000000) / 8) as usize
}

// The eight digits of x.
pub fn eight_digits(x: u64) -> u64
    requires { x < 100000000 }
    ensures { le_bytes 8 result ≡ pad 8 x }
{
    lanes::digit_words::word8(x) + ZEROS
}

// The digits of four numbers below 100, two each, at the price of one.
pub fn four_pairs(a: u64, b: u64, c: u64, d: u64) -> u64
    requires { (a < 100) × (b < 100) × (c < 100) × (d < 100) }
    ensures { le_bytes 8 result ≡ pad 2 a ++ pad 2 b ++ pad 2 c ++ pad 2 d }
{
    lanes::digit_words::pair_digits(a + 65536 * b + 4294967296 * c + 281474976710656 * d) + ZEROS
}

// ---- where there is room

// Exactly two digits.
fn two(buf: &mut [u8], p: usize, x: u32)
    requires { (x < 100) × (p + 2 ≤ length buf.old) }
    ensures { buf.new ≡ sets buf.old p (pad 2 x) }
{
    buf[p] = digit_of(x / 10);
    buf[p + 1] = digit_of(x % 10);
}

// Exactly eight digits.
fn eight(buf: &mut [u8], p: usize, x: u64)
    requires { (x < 100000000) × (p + 8 ≤ length buf.old) }
    ensures { buf.new ≡ sets buf.old p (pad 8 x) }
{
    output::store::<8>(buf, p, eight_digits(x));
}

// One to eight digits, no byte more, and the position behind them.
fn lead_exact(buf: &mut [u8], p: usize, x: u64) -> usize
    requires { (x < 100000000) × (p + 8 ≤ length buf.old) }
    ensures { Led buf.old buf.new p result x }
{
    let d = lanes::digit_words::word8(x);
    let c = 8 - zeros8(d);
    output::store_last(buf, p, d + ZEROS, c);
    p + c
}

// One to eight digits and the position behind them, in one store of eight bytes: what it has too much is for the next eight
// digits to overwrite.
fn lead_store(buf: &mut [u8], p: usize, x: u64) -> usize
    requires { (x < 100000000) × (p + 8 ≤ length buf.old) }
    ensures { Ahead buf.old buf.new p result x }
{
    let d = lanes::digit_words::word8(x);
    let k = zeros8(d);
    output::store::<8>(buf, p, (d + ZEROS) >> (8 * k));
    p + (8 - k)
}

// Plain decimal in blocks of eight digits.
fn put_blocks(buf: &mut [u8], pos: usize, n: u64) -> usize
    requires { pos + 20 ≤ length buf.old }
    ensures { Led buf.old buf.new pos result n }
{
    if n < 100 {
        if n < 10 {
            buf[pos] = digit_of(n as u32);
            return pos + 1;
        }
        two(buf, pos, n as u32);
        return pos + 2;
    }
    if n < 100000000 {
        return lead_exact(buf, pos, n);
    }
    let h = n / 100000000;
    let l = n % 100000000;
    if h < 100000000 {
        let p = lead_store(buf, pos, h);
        eight(buf, p, l);
        return p + 8;
    }
    let p = lead_store(buf, pos, h / 100000000);
    eight(buf, p, h % 100000000);
    eight(buf, p + 8, l);
    p + 16
}

// The w lowest digits of n, eight at most.
fn fill_short(buf: &mut [u8], pos: usize, n: u64, w: usize)
    requires { (w ≤ 8) × (pos + w ≤ length buf.old) }
    ensures { buf.new ≡ sets buf.old pos (pad w n) }
{
    output::store_last(buf, pos, eight_digits(n % 100000000), w);
}

// The w lowest digits of n.
fn fill_padded(buf: &mut [u8], pos: usize, n: u64, w: usize)
    requires { (w ≤ 20) × (pos + w ≤ length buf.old) }
    ensures { buf.new ≡ sets buf.old pos (pad w n) }
{
    if w <= 8 {
        fill_short(buf, pos, n, w);
    } else if w <= 16 {
        fill_short(buf, pos, n / 100000000, w - 8);
        eight(buf, pos + (w - 8), n % 100000000);
    } else {
        fill_short(buf, pos, n / 10000000000000000, w - 16);
        eight(buf, pos + (w - 16), n / 100000000 % 100000000);
        eight(buf, pos + (w - 8), n % 100000000);
    }
}

// ---- for every buffer

// The digit of n that stands before k others.
fn digit_before(n: u64, k: usize) -> u8
    ensures { result ≡ digit (n / 10 ^ k % 10) }
{
    if k < 20 {
        digit_of((n / pow10(k) % 10) as u32)
    } else {
        b'0'
    }
}

// The w lowest digits of n as far as there is room.
fn pad_clipped(buf: &mut [u8], pos: usize, n: u64, w: usize) -> usize
    ensures { Wrote buf.old buf.new pos result (pad w n) }
{
    if buf.len() <= pos {
        return output::ahead(pos, w);
    }
    let mut p = pos;
    for k in (0..w).rev() {
        p = output::put(buf, p, digit_before(n, k));
    }
    p
}

// The two lowest digits of n.
pub fn put_pair(buf: &mut [u8], pos: usize, n: u64) -> usize
    ensures { Wrote buf.old buf.new pos result (pad 2 n) }
{
    if pos < buf.len().saturating_sub(1) {
        two(buf, pos, (n % 100) as u32);
        pos + 2
    } else {
        pad_clipped(buf, pos, n, 2)
    }
}

// The w lowest digits of n, with leading zeros.
pub fn put_padded(buf: &mut [u8], pos: usize, n: u64, w: usize) -> usize
    ensures { Wrote buf.old buf.new pos result (pad w n) }
{
    if w <= 20 && pos <= buf.len() && w <= buf.len() - pos {
        fill_padded(buf, pos, n, w);
        pos + w
    } else {
        pad_clipped(buf, pos, n, w)
    }
}

// Plain decimal.
pub fn put_digits(buf: &mut [u8], pos: usize, n: u64) -> usize
    ensures { Wrote buf.old buf.new pos result (digits n) }
{
    if pos < buf.len().saturating_sub(19) {
        put_blocks(buf, pos, n)
    } else {
        pad_clipped(buf, pos, n, digit_count(n))
    }
}

// Plain decimal, left-padded with zeros to at least w digits: the Rust's function, proved over the width. No writer calls it: a timestamp's
// fields, which the Rust writes by it, are written by words (`four_pairs`, `put_padded`), and the law `zero-padded` says that they are the same.
pub fn write_zero_padded(buf: &mut [u8], pos: usize, n: u64, w: usize) -> usize
    ensures { Wrote buf.old buf.new pos result (zero_padded w n) }
{
    if w <= digit_count(n) {
        put_digits(buf, pos, n)
    } else {
        put_padded(buf, pos, n, w)
    }
}

// ---- reading

#[tactic(auto, unfolding(crate::specs::Digits::is_digit))]
pub fn is_digit(b: u8) -> bool
    ensures { result ≡ is_digit b }
{
    b.is_ascii_digit()
}

// The digits from a place on, joined behind those whose number is acc, and the place behind them; none where the number does not fit.
pub fn digits_at(text: &[u8], from: usize, acc: u64) -> Option<(u64, usize)>
    requires { from ≤ length text.now }
    ensures { RunJoined text.now from acc result }
{
    let mut n = acc;
    for i in from..text.len() {
        let b = text[i];
        if !is_digit(b) {
            return Some((n, i));
        }
        n = n.checked_mul(10)?.checked_add((b - 48) as u64)?;
    }
    Some((n, text.len()))
}
