// Ints and decimals, read from a place of a text by one scanner.
ghost use Rattle.std.specs.Prelude.{◌≡◌, ℕ, suc, ◌≤◌, List, length, drop};
ghost use Rattle.text_rules.specs.Digits.{run, behind_digits};
ghost use Rattle.text_rules.specs.Reading.{Reads, found};
ghost use Rattle.numbers.specs.Numeral.{with_sign, ranged_int, shifted, ranged_decimal, power_of, behind_d, behind_point, behind_whole, unsigned, numeral};
ghost use Rattle.numbers.specs.NumeralSteps.{numeral_read};

use text_rules::digits::digits_at;
use text_rules::texts::stands;

// An int, or a decimal by sign, magnitude and exponent. A reader gives one and the place behind it.
#[derive(Clone, Copy)]
pub enum Numeral {
    Int(i64),
    Decimal(bool, u64, i32),
}

// The written exponent, e or -e, less the digits after the point, if it fits: in 128 bits no step overflows.
fn exponent_of(n: usize, minus: bool, e: u64) -> Option<i32>
    ensures { found result ≡ shifted n (with_sign minus e) }
{
    let written = if minus { -(e as i128) } else { e as i128 };
    i32::try_from(written - n as i128).ok()
}

fn decimal_of(
    negative: bool,
    m: u64,
    n: usize,
    minus: bool,
    e: u64,
    end: usize,
) -> Option<(Numeral, usize)>
    ensures { (text : List ℕ) → end ≤ length text → Reads text end (ranged_decimal negative m n (with_sign minus e) (drop end text)) (numeral_read result) }
{
    let x = exponent_of(n, minus, e)?;
    Some((Numeral::Decimal(negative, m, x), end))
}

fn int_of(negative: bool, m: u64, end: usize) -> Option<(Numeral, usize)>
    ensures { (text : List ℕ) → end ≤ length text → Reads text end (ranged_int negative m (drop end text)) (numeral_read result) }
{
    let z = if negative {
        // -m is m - 1 with all its bits turned over
        !i64::try_from(m.checked_sub(1)?).ok()?
    } else {
        i64::try_from(m).ok()?
    };
    Some((Numeral::Int(z), end))
}

fn power_at(
    text: &[u8],
    at: usize,
    negative: bool,
    m: u64,
    n: usize,
    minus: bool,
) -> Option<(Numeral, usize)>
    requires { at ≤ length text.now }
    ensures { Reads text.now at (power_of negative m n minus (run (drop at text.now)) (behind_digits (drop at text.now))) (numeral_read result) }
{
    let (e, end) = digits_at(text, at, 0)?;
    let k = end - at;
    if k == 0 || 10 < k {
        return None;
    }
    decimal_of(negative, m, n, minus, e, end)
}

fn behind_d(text: &[u8], at: usize, negative: bool, m: u64, n: usize) -> Option<(Numeral, usize)>
    requires { at ≤ length text.now }
    ensures { Reads text.now at (behind_d negative m n (drop at text.now)) (numeral_read result) }
{
    if stands(text, at, b'-') {
        return power_at(text, at + 1, negative, m, n, true);
    }
    if stands(text, at, b'+') {
        return power_at(text, at + 1, negative, m, n, false);
    }
    power_at(text, at, negative, m, n, false)
}

fn behind_point(
    text: &[u8],
    at: usize,
    negative: bool,
    m: u64,
    n: usize,
) -> Option<(Numeral, usize)>
    requires { at ≤ length text.now }
    ensures { Reads text.now at (behind_point negative m n (drop at text.now)) (numeral_read result) }
{
    if stands(text, at, b'd') {
        return behind_d(text, at + 1, negative, m, n);
    }
    decimal_of(negative, m, n, false, 0, at)
}

fn behind_whole(text: &[u8], at: usize, negative: bool, m: u64) -> Option<(Numeral, usize)>
    requires { at ≤ length text.now }
    ensures { Reads text.now at (behind_whole negative m (drop at text.now)) (numeral_read result) }
{
    if stands(text, at, b'.') {
        let (k, end) = digits_at(text, at + 1, m)?;
        return behind_point(text, end, negative, k, end - (at + 1));
    }
    if stands(text, at, b'd') {
        return behind_d(text, at + 1, negative, m, 0);
    }
    int_of(negative, m, at)
}

fn unsigned_at(text: &[u8], at: usize, negative: bool) -> Option<(Numeral, usize)>
    requires { at ≤ length text.now }
    ensures { Reads text.now (suc at) (unsigned negative (drop at text.now)) (numeral_read result) }
{
    let (m, end) = digits_at(text, at, 0)?;
    let k = end - at;
    if k == 0 || 1 < k && text[at] == b'0' {
        return None;
    }
    behind_whole(text, end, negative, m)
}

// The int or decimal that the text from `at` on starts with, and the place behind it.
pub fn numeral_at(text: &[u8], at: usize) -> Option<(Numeral, usize)>
    requires { at ≤ length text.now }
    ensures { Reads text.now (suc at) (numeral (drop at text.now)) (numeral_read result) }
{
    let neg = stands(text, at, b'-');
    let from = if neg { at + 1 } else { at };
    unsigned_at(text, from, neg)
}
