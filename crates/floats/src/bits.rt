// The bits of the float that a whole number is, and the whole number that the float of bits is.
ghost use Rattle.std.specs.Prelude.{◌≡◌, false, ◌≤◌, ◌<◌};
ghost use Rattle.std.specs.Float.{binary64};
ghost use Rattle.std.specs.Float.Ieee.{of_bits, to_bits};
ghost use Rattle.text_rules.specs.Reading.{found};
ghost use Rattle.floats.specs.Whole.{most_whole};
ghost use Rattle.floats.specs.Value.{magnitude, whole_float};

// The bits without the sign. The number is moved up until it has 53 binary digits; the first of them adds one to the exponent.
fn unsigned_bits(n: u64) -> u64
    requires { n ≤ most_whole }
    ensures { (result < 0x8000_0000_0000_0000) × (result ≡ to_bits binary64 (whole_float false n)) }
{
    if n == 0 {
        return 0;
    }
    if n == 9007199254740992 {
        return 0x4340000000000000;
    }
    let i = u64::leading_zeros(n) - 11;
    let m = n << i;
    (1074 - i as u64) * 4503599627370496 + m
}

// The bits of the float of a sign and a whole number.
pub fn bits_of(neg: bool, n: u64) -> u64
    requires { n ≤ most_whole }
    ensures { result ≡ to_bits binary64 (whole_float neg n) }
{
    let b = unsigned_bits(n);
    if neg {
        return 0x8000000000000000 + b;
    }
    b
}

// The whole number up to the most that the float of these bits is, of either sign; or none.
#[tactic(auto, using(crate::proofs::ValueBits::past_told))]
pub fn magnitude_of(bits: u64) -> Option<u64>
    ensures { found result ≡ magnitude (of_bits binary64 bits) }
{
    let e = bits % 0x8000000000000000 / 4503599627370496;
    let t = bits % 4503599627370496;
    if e == 0 {
        return (t == 0).then_some(0);
    }
    if e < 1023 {
        return None;
    }
    if 1076 < e {
        return None;
    }
    if e == 1076 {
        return (t == 0).then_some(9007199254740992);
    }
    let q = 4503599627370496 + t;
    let i = 1075 - e;
    let n = q >> i;
    if n << i == q {
        return Some(n);
    }
    None
}
