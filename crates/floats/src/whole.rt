// Whole numbers as a float prints them, written and read.
ghost use Rattle.std.specs.Prelude.{◌≡◌, List, ◌∷◌, ℕ, suc, ◌≤◌, ◌<◌, length, drop};
ghost use Rattle.output.specs.Logic.{byte};
ghost use Rattle.output.specs.Wrote.{Wrote, limit};
ghost use Rattle.text_rules.specs.Digits.{digit, count, digits};
ghost use Rattle.text_rules.specs.Reading.{Reads, found};
ghost use Rattle.floats.specs.Whole.{significant, point, whole_text, scaled, behind_e, behind_all, behind_first, whole_number};

use text_rules::digits::{digits_at, is_digit};
use text_rules::texts::stands;

// ---- writing

// The number without its trailing zeros, one by one. A walk: how many there are shows only at its end.
fn trimmed(n: u64) -> u64
    requires { 0 < n }
    ensures { significant (digits n) ≡ digits result }
{
    let mut m = n;
    while m % 10 == 0 {
        m = m / 10;
    }
    m
}

// The same, eight at once before.
fn significant_of(n: u64) -> u64
    requires { 0 < n }
    ensures { significant (digits n) ≡ digits result }
{
    if n % 100000000 == 0 {
        return trimmed(n / 100000000);
    }
    trimmed(n)
}

// The digit of a number below ten. That of `text_rules::digits` has a u32 and is its own: shared, it would be a public function, with a cast at each call.
fn digit_of(x: u64) -> u8
    requires { x < 10 }
    ensures { result ≡ digit x }
{
    48 + x as u8
}

// The digits of m, eight at most, with a point after the first: a word of them.
fn put_short(buf: &mut [u8], pos: usize, m: u64, w: usize) -> usize
    requires { (w ≡ count 19 m) × (2 ≤ w) × (w ≤ 8) }
    ensures { Wrote buf.old buf.new pos result (point (digits m)) }
{
    let v = text_rules::digits::eight_digits(m) >> (64 - 8 * w);
    let p = output::put_two(buf, pos, (v % 256) as u8, b'.');
    output::put_le(buf, p, v / 256, w - 1)
}

// The digits of m, with a point after the first if more follow.
fn put_point(buf: &mut [u8], pos: usize, m: u64) -> usize
    ensures { Wrote buf.old buf.new pos result (point (digits m)) }
{
    let w = text_rules::digits::digit_count(m);
    if w == 1 {
        return text_rules::digits::put_digits(buf, pos, m);
    }
    if w <= 8 {
        return put_short(buf, pos, m, w);
    }
    let left = w - 1;
    let d = digit_of(m / text_rules::digits::pow10(left) % 10);
    let p = output::put_two(buf, pos, d, b'.');
    text_rules::digits::put_padded(buf, p, m, left)
}

// `e` and the exponent.
fn put_exponent(buf: &mut [u8], pos: usize, e: u64) -> usize
    ensures { Wrote buf.old buf.new pos result (byte "e" ∷ digits e) }
{
    if e < 10 {
        return output::put_two(buf, pos, b'e', digit_of(e));
    }
    let p = output::put(buf, pos, b'e');
    text_rules::digits::put_digits(buf, p, e)
}

// The text of n, of every n.
pub fn format_whole(buf: &mut [u8], pos: usize, n: u64) -> usize
    ensures { Wrote buf.old buf.new pos result (whole_text n) }
{
    if n == 0 {
        return output::put_le(buf, pos, 0x306530, 3);
    }
    let p = put_point(buf, pos, significant_of(n));
    put_exponent(buf, p, (text_rules::digits::digit_count(n) - 1) as u64)
}

// How long the text is.
pub fn whole_length(n: u64) -> usize
    ensures { result ≡ length (whole_text n) }
{
    if n == 0 {
        return 3;
    }
    let w = text_rules::digits::digit_count(significant_of(n));
    let e = (text_rules::digits::digit_count(n) - 1) as u64;
    let x = text_rules::digits::digit_count(e);
    if w == 1 {
        return 2 + x;
    }
    w + 2 + x
}

// ---- reading

// The number that m is, of whose digits f stand after the point, times ten to the e.
fn scaled_of(m: u64, f: usize, e: u64, end: usize) -> Option<(u64, usize)>
    ensures { (text : List ℕ) → end ≤ length text → Reads text end (scaled m f e (drop end text)) (found result) }
{
    if m == 0 && e == 0 {
        return Some((0, end));
    }
    if m % 10 == 0 || 15 < e {
        return None;
    }
    let k = e as usize;
    if k < f {
        return None;
    }
    let p = text_rules::digits::pow10(k - f);
    if 9007199254740992 / p < m {
        return None;
    }
    Some((m * p, end))
}

fn behind_e(text: &[u8], at: usize, m: u64, f: usize) -> Option<(u64, usize)>
    requires { at ≤ length text.now }
    ensures { Reads text.now at (behind_e m f (drop at text.now)) (found result) }
{
    let (e, end) = digits_at(text, at, 0)?;
    let k = end - at;
    if k == 0 {
        return None;
    }
    if 1 < k && text[at] == b'0' {
        return None;
    }
    scaled_of(m, f, e, end)
}

fn behind_all(text: &[u8], at: usize, m: u64, f: usize) -> Option<(u64, usize)>
    requires { at ≤ length text.now }
    ensures { Reads text.now at (behind_all m f (drop at text.now)) (found result) }
{
    if stands(text, at, b'e') {
        return behind_e(text, at + 1, m, f);
    }
    None
}

fn behind_first(text: &[u8], at: usize, m: u64) -> Option<(u64, usize)>
    requires { at ≤ length text.now }
    ensures { Reads text.now at (behind_first m (drop at text.now)) (found result) }
{
    if stands(text, at, b'.') {
        if m == 0 {
            return None;
        }
        let (k, end) = digits_at(text, at + 1, m)?;
        let f = end - (at + 1);
        if f == 0 {
            return None;
        }
        return behind_all(text, end, k, f);
    }
    behind_all(text, at, m, 0)
}

// The whole number that the text from `at` on starts with, and the place behind it.
pub fn whole_at(text: &[u8], at: usize) -> Option<(u64, usize)>
    requires { at ≤ length text.now }
    ensures { Reads text.now (suc at) (whole_number (drop at text.now)) (found result) }
{
    if at == text.len() {
        return None;
    }
    let b = text[at];
    if !is_digit(b) {
        return None;
    }
    behind_first(text, at + 1, (b - b'0') as u64)
}
