// Ints: signed machine numbers by sign and distance from zero, and their text.
ghost use Rattle.std.specs.Prelude.{◌≡◌, true, false, ◌≤◌, ◌<◌, negsuc, nat_abs};
ghost use Rattle.std.proofs.Math.IntN;
ghost use Rattle.output.specs.Wrote.{Wrote, limit};
ghost use Rattle.numbers.specs.Decimal.{sign, int_text};

// A count as a number of 64 bits.
pub fn far(x: usize) -> u64
    ensures { result ≡ x }
{
    x as u64
}

// The distance from zero.
pub fn size(n: i64) -> u64
    ensures { result ≡ nat_abs n }
{
    n.unsigned_abs()
}

// The number n.
pub fn plus(n: u64) -> i64
    requires { n < 9223372036854775808 }
    ensures { result ≡ IntN.pos n }
{
    n as i64
}

// The number -(n + 1).
pub fn minus(n: u64) -> i64
    requires { n < 9223372036854775808 }
    ensures { result ≡ negsuc n }
{
    !(n as i64)
}

pub fn widen(n: i32) -> i64
    ensures { result ≡ n }
{
    n as i64
}

// A minus if negative; else the position stays.
pub fn put_sign(buf: &mut [u8], pos: usize, negative: bool) -> usize
    ensures minus { negative ≡ true → Wrote buf.old buf.new pos result (sign true) }
    ensures nothing { negative ≡ false → (result ≡ pos) × (buf.new ≡ buf.old) }
{
    if negative {
        output::put(buf, pos, b'-')
    } else {
        pos
    }
}

// Plain decimal, with a minus if below zero.
pub fn format_integer(buf: &mut [u8], pos: usize, n: i64) -> usize
    ensures { Wrote buf.old buf.new pos result (int_text n) }
{
    let p = put_sign(buf, pos, n < 0);
    text_rules::digits::put_digits(buf, p, n.unsigned_abs())
}
