// The bytes of nodes, written.
ghost use Rattle.std.specs.Prelude.{◌≡◌, [], ◌∷◌, ◌++◌, ◌+◌, ◌≤◌, length};
ghost use Rattle.std.proofs.lemmas.List.Edits.{sets};
ghost use Rattle.output.specs.Wrote.{Wrote, limit, le_bytes};
ghost use Rattle.tape.specs.Bytes.{bits};
ghost use Rattle.tape.specs.Tree.{Scalar, bit, sized, float_bits, encode_scalar};

use numbers::int;
use numbers::timestamp::Timestamp;

// Two bytes.
pub fn put2(buf: &mut [u8], pos: usize, a: u8, b: u8) -> usize
    ensures { Wrote buf.old buf.new pos result (a ∷ b ∷ []) }
{
    let p = output::put(buf, pos, a);
    output::put(buf, p, b)
}

// A kind byte and four bytes of a number, for which there is room: two stores.
fn header_at(buf: &mut [u8], pos: usize, kind: u8, n: usize)
    requires { pos + 5 ≤ length buf.old }
    ensures { buf.new ≡ sets buf.old pos (kind ∷ le_bytes 4 n) }
{
    buf[pos] = kind;
    output::store::<4>(buf, pos + 1, int::far(n));
}

// A kind byte and four bytes of a number: an identifier, or the length of what stands behind them.
pub fn put_header(buf: &mut [u8], pos: usize, kind: u8, n: usize) -> usize
    ensures { Wrote buf.old buf.new pos result (kind ∷ le_bytes 4 n) }
{
    if buf.len() <= pos {
        return output::ahead(pos, 5);
    }
    if 5 <= buf.len() - pos {
        header_at(buf, pos, kind, n);
        return pos + 5;
    }
    let p = output::put(buf, pos, kind);
    output::put_le(buf, p, int::far(n), 4)
}

// A kind byte and eight bytes of a number, for which there is room.
fn wide_at(buf: &mut [u8], pos: usize, kind: u8, n: u64)
    requires { pos + 9 ≤ length buf.old }
    ensures { buf.new ≡ sets buf.old pos (kind ∷ le_bytes 8 n) }
{
    buf[pos] = kind;
    output::store::<8>(buf, pos + 1, n);
}

// A kind byte and eight bytes of a number.
pub fn put_wide(buf: &mut [u8], pos: usize, kind: u8, n: u64) -> usize
    ensures { Wrote buf.old buf.new pos result (kind ∷ le_bytes 8 n) }
{
    if buf.len() <= pos {
        return output::ahead(pos, 9);
    }
    if 9 <= buf.len() - pos {
        wide_at(buf, pos, kind, n);
        return pos + 9;
    }
    let p = output::put(buf, pos, kind);
    output::put_le(buf, p, n, 8)
}

// A symbol's text.
pub fn put_text(buf: &mut [u8], pos: usize, s: &[u8]) -> usize
    ensures { Wrote buf.old buf.new pos result (6 ∷ sized s.now) }
{
    let p = put_header(buf, pos, 6, s.len());
    output::put_bytes(buf, p, s)
}

// ---- numbers, by their bits: two's complement

fn bits_of(n: i64) -> u64
    ensures { result ≡ bits 64 n }
{
    if n < 0 {
        18446744073709551615 - (!n) as u64
    } else {
        n as u64
    }
}

fn bits_of_exponent(e: i32) -> u64
    ensures { result ≡ bits 32 e }
{
    bits_of(int::widen(e)) % 4294967296
}

fn widen_offset(e: i16) -> i64
    ensures { result ≡ e }
{
    e as i64
}

fn bits_of_offset(e: i16) -> u64
    ensures { result ≡ bits 16 e }
{
    bits_of(widen_offset(e)) % 65536
}

// A NaN has one pattern.
fn bits_of_float(x: f64) -> u64
    ensures { result ≡ float_bits x }
{
    if x != x {
        return 0x7FF8_0000_0000_0000;
    }
    f64::to_bits(x)
}

fn bit_of(b: bool) -> u8
    ensures { result ≡ bit b }
{
    if b { 1 } else { 0 }
}

// ---- scalars

pub fn put_int(buf: &mut [u8], pos: usize, n: i64) -> usize
    ensures { Wrote buf.old buf.new pos result (encode_scalar (Scalar.int n)) }
{
    put_wide(buf, pos, 2, bits_of(n))
}

pub fn put_float(buf: &mut [u8], pos: usize, x: f64) -> usize
    ensures { Wrote buf.old buf.new pos result (encode_scalar (Scalar.float x)) }
{
    put_wide(buf, pos, 3, bits_of_float(x))
}

pub fn put_decimal(buf: &mut [u8], pos: usize, neg: bool, m: u64, e: i32) -> usize
    ensures { Wrote buf.old buf.new pos result (encode_scalar (Scalar.decimal neg m e)) }
{
    let p = output::put(buf, pos, 4);
    let q = put_wide(buf, p, bit_of(neg), m);
    output::put_le(buf, q, bits_of_exponent(e), 4)
}

// The eight bytes of a timestamp from the precision to the second, as one number.
fn date_word(x: Timestamp) -> u64
    ensures { le_bytes 8 result ≡ x.precision ∷ (le_bytes 2 x.year ++ (x.month ∷ x.day ∷ x.hour ∷ x.minute ∷ x.second ∷ [])) }
{
    x.precision as u64
        + 256 * x.year as u64
        + 16777216 * x.month as u64
        + 4294967296 * x.day as u64
        + 1099511627776 * x.hour as u64
        + 281474976710656 * x.minute as u64
        + 72057594037927936 * x.second as u64
}

// The seven bytes behind the second, in the same way.
fn offset_word(x: Timestamp) -> u64
    ensures { le_bytes 7 result ≡ le_bytes 2 (bits 16 x.offset) ++ (x.digits ∷ le_bytes 4 x.fraction) }
{
    bits_of_offset(x.offset) + 65536 * x.digits as u64 + 16777216 * x.fraction as u64
}

pub fn put_timestamp(buf: &mut [u8], pos: usize, x: Timestamp) -> usize
    ensures { Wrote buf.old buf.new pos result (encode_scalar (Scalar.timestamp x)) }
{
    let p = put_wide(buf, pos, 5, date_word(x));
    output::put_le(buf, p, offset_word(x), 7)
}
