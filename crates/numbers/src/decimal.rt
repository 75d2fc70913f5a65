// The text of a decimal: `format_text` and `write_scientific` of types/decimal/mod.rs.
ghost use Rattle.std.specs.Prelude.{◌≡◌, true, false, ◌+◌, ◌≤◌, ◌<◌, ◌∷◌, ◌++◌, length, replicate};
ghost use Rattle.std.proofs.lemmas.List.Edits.{sets};
ghost use Rattle.output.specs.Logic.{byte};
ghost use Rattle.output.specs.Wrote.{Wrote, limit};
ghost use Rattle.text_rules.specs.Digits.{count, digits};
ghost use Rattle.numbers.specs.Decimal.{pointed, scientific, above, below, decimal_text};

use crate::int;

// The digits of n, eight at most, with a point after k of them: all digits one place on, then the first k in their own place and the point.
fn pointed_short(buf: &mut [u8], pos: usize, n: u64, w: usize, k: usize)
    requires { (w ≡ count 19 n) × (w ≤ 8) × (1 ≤ k) × (k ≤ w) × (pos + 9 ≤ length buf.old) }
    ensures { buf.new ≡ sets buf.old pos (pointed (digits n) k) }
{
    let v = text_rules::digits::eight_digits(n) >> (64 - 8 * w);
    output::store_low(buf, pos + 1, v, w);
    output::store_low(buf, pos, v, k);
    buf[pos + k] = b'.';
}

// The digits of n, nine to sixteen, with a point after k of those that stand before the last eight.
fn pointed_long(buf: &mut [u8], pos: usize, n: u64, w: usize, k: usize)
    requires { (w ≡ count 19 n) × (8 < w) × (w ≤ 16) × (1 ≤ k) × (k + 8 ≤ w) × (pos + 17 ≤ length buf.old) }
    ensures { buf.new ≡ sets buf.old pos (pointed (digits n) k) }
{
    let v = text_rules::digits::eight_digits(n / 100000000) >> (128 - 8 * w);
    output::store::<8>(buf, pos + 1, v);
    output::store::<8>(
        buf,
        pos + (w - 7),
        text_rules::digits::eight_digits(n % 100000000),
    );
    output::store_low(buf, pos, v, k);
    buf[pos + k] = b'.';
}

// The digits of n, nine to sixteen, with a point after k that cuts the last eight: all digits in their own place, then those behind the point
// one place on.
fn pointed_late(buf: &mut [u8], pos: usize, n: u64, w: usize, k: usize)
    requires { (w ≡ count 19 n) × (8 < w) × (w ≤ 16) × (k ≤ w) × (w < k + 8) × (pos + 17 ≤ length buf.old) }
    ensures { buf.new ≡ sets buf.old pos (pointed (digits n) k) }
{
    let v = text_rules::digits::eight_digits(n / 100000000) >> (128 - 8 * w);
    let l = text_rules::digits::eight_digits(n % 100000000);
    output::store::<8>(buf, pos, v);
    output::store::<8>(buf, pos + (w - 8), l);
    text_rules::digits::store_last(buf, pos + k + 1, l, w - k);
    buf[pos + k] = b'.';
}

// The digits of n, w of them, with a point after k. For every buffer: the number that the first k are, and as many digits as are left.
fn put_pointed(buf: &mut [u8], pos: usize, n: u64, w: usize, k: usize) -> usize
    requires { (w ≡ count 19 n) × (w ≤ 20) × (1 ≤ k) × (k ≤ w) }
    ensures { Wrote buf.old buf.new pos result (pointed (digits n) k) }
{
    if pos < buf.len().saturating_sub(16) {
        if w <= 8 {
            pointed_short(buf, pos, n, w, k);
            return pos + w + 1;
        }
        if w <= 16 {
            if k + 8 <= w {
                pointed_long(buf, pos, n, w, k);
                return pos + w + 1;
            }
            pointed_late(buf, pos, n, w, k);
            return pos + w + 1;
        }
    }
    let left = w - k;
    let p = text_rules::digits::put_digits(buf, pos, n / text_rules::digits::pow10(left));
    let q = output::put(buf, p, b'.');
    text_rules::digits::put_padded(buf, q, n, left)
}

// First digit, point and remaining digits, `d`, exponent.
fn write_scientific(buf: &mut [u8], pos: usize, n: u64, w: usize, exponent: i64) -> usize
    requires { (w ≡ count 19 n) × (w ≤ 20) × (1 ≤ w) }
    ensures { Wrote buf.old buf.new pos result (scientific (digits n) exponent) }
{
    let p = put_pointed(buf, pos, n, w, 1);
    let q = output::put(buf, p, b'd');
    int::format_integer(buf, q, exponent)
}

// `0.`, five zeros at most, digits. What stands before the digits is a word of eight bytes, the first lowest.
fn put_small(buf: &mut [u8], pos: usize, n: u64, zeros: usize) -> usize
    requires { zeros ≤ 5 }
    ensures { Wrote buf.old buf.new pos result (byte "0" ∷ byte "." ∷ (replicate zeros (byte "0") ++ digits n)) }
{
    let a = output::put_le(buf, pos, 0x3030_3030_3030_2E30, 2 + zeros);
    text_rules::digits::put_digits(buf, a, n)
}

// The exponent is e, 0 or above.
fn put_above(buf: &mut [u8], pos: usize, n: u64, w: usize, e: u64) -> usize
    requires { (w ≡ count 19 n) × (w ≤ 20) × (1 ≤ w) }
    ensures { Wrote buf.old buf.new pos result (above (digits n) w e) }
{
    if e == 0 {
        if 6 < w {
            return write_scientific(buf, pos, n, w, (w - 1) as i64);
        }
        let a = text_rules::digits::put_digits(buf, pos, n);
        return output::put(buf, a, b'.');
    }
    let a = text_rules::digits::put_digits(buf, pos, n);
    let b = output::put(buf, a, b'd');
    text_rules::digits::put_digits(buf, b, e)
}

// The exponent is -k.
fn put_below(buf: &mut [u8], pos: usize, n: u64, w: usize, k: u64) -> usize
    requires { (w ≡ count 19 n) × (w ≤ 20) × (1 ≤ w) × (1 ≤ k) × (k ≤ limit) }
    ensures { Wrote buf.old buf.new pos result (below (digits n) w k) }
{
    let l = w as u64;
    if k < l {
        return put_pointed(buf, pos, n, w, (l - k) as usize);
    }
    if k <= l + 5 {
        return put_small(buf, pos, n, (k - l) as usize);
    }
    write_scientific(buf, pos, n, w, -1 - (k - l) as i64)
}

pub fn format_text(
    buf: &mut [u8],
    pos: usize,
    negative: bool,
    magnitude: u64,
    exponent: i32,
) -> usize
    ensures { Wrote buf.old buf.new pos result (decimal_text negative magnitude exponent) }
{
    let p = int::put_sign(buf, pos, negative);
    let w = text_rules::digits::digit_count(magnitude);
    let e = u64::from(exponent.unsigned_abs());
    if exponent < 0 {
        return put_below(buf, p, magnitude, w, e);
    }
    put_above(buf, p, magnitude, w, e)
}
