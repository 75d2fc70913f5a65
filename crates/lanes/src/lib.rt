// Tests of the bytes of a word side by side: up to eight bytes at once, the lowest first. A mark is the high bit of a byte's place, and a test
// says yes where none of the n lowest bytes is marked. Which bytes those are is said by the crates that use it, in their own words,
// but for `sextets`, whose rule is base64's.
#![tactic(auto)]

ghost use Rattle.std.specs.Prelude.{◌%◌, ◌≤◌, ◌≡◌, not};
ghost use Rattle.output.specs.Wrote.{le_bytes};
ghost use Rattle.lanes.specs.Lanes.{rep, Lane, every, unmarked_by, letter_mark, no_letter, no_part, no_raw};

pub mod digit_words;
pub mod sextets;

// Hex 80 in each of the 1 to 8 lowest bytes.
const HIGH_BITS: [u64; 8] = [
    0x80,
    0x8080,
    0x808080,
    0x80808080,
    0x8080808080,
    0x808080808080,
    0x80808080808080,
    0x8080808080808080,
];

// Hex 80 in each of the n lowest bytes.
#[tactic(auto, unfolding(crate::specs::Lanes::rep))]
pub fn high_bits(n: usize) -> u64
    requires { (1 ≤ n) × (n ≤ 8) }
    ensures { result ≡ rep n 0x80 }
{
    HIGH_BITS[n - 1]
}

// The n lowest bytes are below hex 80.
pub fn is_ascii(x: u64, n: usize) -> bool
    requires { (1 ≤ n) × (n ≤ 8) }
    ensures { result ≡ every (unmarked_by (λ b. b)) (le_bytes n x) }
{
    x & high_bits(n) == 0
}

// Marks of the bytes whose seven low bits are an ASCII letter or `_`.
fn letters(x: u64) -> u64
    ensures { Lane letter_mark x result }
{
    let z = x & 0x7F7F7F7F7F7F7F7F;
    let y = z | 0x2020202020202020;
    (y + 0x1F1F1F1F1F1F1F1F) & !(y + 0x0505050505050505)
        | !((z ^ 0x5F5F5F5F5F5F5F5F) + 0x7F7F7F7F7F7F7F7F)
}

// The n lowest bytes are letters and `_`.
pub fn is_letter_word(x: u64, n: usize) -> bool
    requires { (1 ≤ n) × (n ≤ 8) }
    ensures { result ≡ every (unmarked_by no_letter) (le_bytes n x) }
{
    (!letters(x) | x) & high_bits(n) == 0
}

// The n lowest bytes are letters, digits, `_` and `$`.
pub fn is_identifier_word(x: u64, n: usize) -> bool
    requires { (1 ≤ n) × (n ≤ 8) }
    ensures { result ≡ every (unmarked_by no_part) (le_bytes n x) }
{
    let z = x & 0x7F7F7F7F7F7F7F7F;
    let m = letters(x)
        | (z + 0x5050505050505050) & !(z + 0x4646464646464646)
        | !((z ^ 0x2424242424242424) + 0x7F7F7F7F7F7F7F7F);
    (!m | x) & high_bits(n) == 0
}

// Marks of the bytes that are below hex 20, a quote mark or a backslash.
pub fn not_raw(x: u64) -> u64
    ensures { Lane no_raw x result }
{
    let z = x & 0x7F7F7F7F7F7F7F7F;
    let r = (z + 0x6060606060606060)
        & ((z ^ 0x2222222222222222) + 0x7F7F7F7F7F7F7F7F)
        & ((z ^ 0x2727272727272727) + 0x7F7F7F7F7F7F7F7F)
        & ((z ^ 0x5C5C5C5C5C5C5C5C) + 0x7F7F7F7F7F7F7F7F);
    !(r | x)
}

// The n lowest bytes are hex 20 at least, and no quote mark or backslash.
pub fn is_raw_word(x: u64, n: usize) -> bool
    requires { (1 ≤ n) × (n ≤ 8) }
    ensures { result ≡ every (unmarked_by no_raw) (le_bytes n x) }
{
    not_raw(x) & high_bits(n) == 0
}

// The seven low bits of the lowest byte are a letter or `_`.
pub fn starts_with_letter(x: u64) -> bool
    ensures { result ≡ not (unmarked_by letter_mark (x % 256)) }
{
    letters(x) & 0x80 != 0
}
