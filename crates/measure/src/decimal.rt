// The length of a decimal's text, by the number of its digits.
ghost use Rattle.std.specs.Prelude.{◌≡◌, ◌≤◌, ◌<◌, length};
ghost use Rattle.output.specs.Wrote.{limit};
ghost use Rattle.numbers.specs.Decimal.{scientific, above, below, sign, decimal_text};
ghost use Rattle.text_rules.specs.Digits.{count, digits};

use numbers::int;

fn sign_length(negative: bool) -> usize
    ensures { (result ≡ length (sign negative)) × (result ≤ 1) }
{
    if negative { 1 } else { 0 }
}

// Of w digits, those of n.
fn scientific_length(n: u64, w: usize, exponent: i64) -> usize
    requires { (w ≡ count 19 n) × (w ≤ 20) × (1 ≤ w) }
    ensures { (result ≡ length (scientific (digits n) exponent)) × (result ≤ 43) }
{
    w + 2 + crate::int::integer_length(exponent)
}

// The exponent is e, 0 or above.
fn above_length(n: u64, w: usize, e: u64) -> usize
    requires { (w ≡ count 19 n) × (w ≤ 20) × (1 ≤ w) }
    ensures { (result ≡ length (above (digits n) w e)) × (result ≤ 43) }
{
    if e == 0 {
        if 6 < w {
            return scientific_length(n, w, int::plus(int::far(w - 1)));
        }
        return w + 1;
    }
    w + 1 + text_rules::digits::digit_count(e)
}

// The exponent is -k.
fn below_length(n: u64, w: usize, k: u64) -> usize
    requires { (w ≡ count 19 n) × (w ≤ 20) × (1 ≤ w) × (1 ≤ k) × (k ≤ limit) }
    ensures { (result ≡ length (below (digits n) w k)) × (result ≤ 43) }
{
    let l = int::far(w);
    if k < l {
        return w + 1;
    }
    if k <= l + 5 {
        return 2 + k as usize;
    }
    scientific_length(n, w, int::minus(k - l))
}

pub fn decimal_length(negative: bool, magnitude: u64, exponent: i32) -> usize
    ensures { result ≡ length (decimal_text negative magnitude exponent) }
{
    let s = sign_length(negative);
    let w = text_rules::digits::digit_count(magnitude);
    let e = int::size(int::widen(exponent));
    if exponent < 0 {
        return s + below_length(magnitude, w, e);
    }
    s + above_length(magnitude, w, e)
}
