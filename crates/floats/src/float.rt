// Floats as text, written and read: nan, the infinities, and whole numbers with their sign.
ghost use Rattle.std.specs.Prelude.{◌≡◌, not, ◌++◌, suc, ◌≤◌, T, length, drop};
ghost use Rattle.std.specs.Float.{binary64};
ghost use Rattle.std.specs.Float.Ieee.{of_bits, is_nan};
ghost use Rattle.output.specs.Wrote.{Wrote, limit};
ghost use Rattle.numbers.specs.Decimal.{sign};
ghost use Rattle.text_rules.specs.Reading.{found, Reads};
ghost use Rattle.floats.specs.Whole.{whole_text};
ghost use Rattle.floats.specs.Float.{float_text, nan_word, signed_whole, float};

use crate::{bits, whole};

// ---- writing

// A minus if negative, then the whole number.
fn put_signed(buf: &mut [u8], pos: usize, neg: bool, n: u64) -> usize
    ensures { Wrote buf.old buf.new pos result (sign neg ++ whole_text n) }
{
    let p = numbers::int::put_sign(buf, pos, neg);
    whole::format_whole(buf, p, n)
}

// A float that is no NaN, by its bits.
fn put_bits(buf: &mut [u8], pos: usize, b: u64) -> usize
    requires { T (not (is_nan (of_bits binary64 b))) }
    ensures { Wrote buf.old buf.new pos result (float_text (of_bits binary64 b)) }
{
    if let Some(n) = bits::magnitude_of(b) {
        return put_signed(buf, pos, 0x8000_0000_0000_0000 <= b, n);
    }
    // `+inf` and `-inf`, the first byte lowest
    if b == 0x7FF0_0000_0000_0000 {
        return output::put_le(buf, pos, 0x666E692B, 4);
    }
    if b == 0xFFF0_0000_0000_0000 {
        return output::put_le(buf, pos, 0x666E692D, 4);
    }
    output::bounded(pos)
}

pub fn format_float(buf: &mut [u8], pos: usize, x: f64) -> usize
    ensures { Wrote buf.old buf.new pos result (float_text x) }
{
    if x != x {
        return output::put_le(buf, pos, 0x6E616E, 3);
    }
    put_bits(buf, pos, f64::to_bits(x))
}

// ---- reading

// A whole number behind its sign.
fn signed_at(text: &[u8], at: usize, neg: bool) -> Option<(f64, usize)>
    requires { at ≤ length text.now }
    ensures { Reads text.now (suc at) (signed_whole neg (drop at text.now)) (found result) }
{
    let (n, end) = whole::whole_at(text, at)?;
    Some((f64::from_bits(bits::bits_of(neg, n)), end))
}

fn nan_at(text: &[u8], at: usize) -> Option<(f64, usize)>
    requires { at ≤ length text.now }
    ensures { Reads text.now (suc at) (nan_word (drop at text.now)) (found result) }
{
    let e = text_rules::words::word_end(text, at);
    if text_rules::words::same_word(&text[at..e], b"nan") {
        return Some((0.0 / 0.0, e));
    }
    None
}

// The float that the text from `at` on starts with, told by its first byte, and the place behind it.
pub fn float_at(text: &[u8], at: usize) -> Option<(f64, usize)>
    requires { at ≤ length text.now }
    ensures { Reads text.now (suc at) (float (drop at text.now)) (found result) }
{
    if at == text.len() {
        return None;
    }
    let b = text[at];
    if b'9' < b {
        return nan_at(text, at);
    }
    if b'0' <= b {
        return signed_at(text, at, false);
    }
    if b == b'-' {
        if text_rules::words::word_stands(text, at, b"-inf") {
            return Some((f64::from_bits(0xFFF0_0000_0000_0000), at + 4));
        }
        return signed_at(text, at + 1, true);
    }
    if text_rules::words::word_stands(text, at, b"+inf") {
        return Some((f64::from_bits(0x7FF0_0000_0000_0000), at + 4));
    }
    None
}
