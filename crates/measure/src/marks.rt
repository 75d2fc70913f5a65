// By how many bytes escapes make text longer, a word at a time, its bytes side by side as in the crate lanes: up to eight at once, the lowest first.
ghost use Rattle.std.specs.Prelude.{◌+◌, ◌≤◌, ◌≡◌, length};
ghost use Rattle.output.specs.Wrote.{le_bytes};
ghost use Rattle.text_rules.specs.Escapes.{text_body};

// By how many bytes the n lowest bytes are longer as text: an escape adds one, and two more by hex digits, which most words have none of. Marks are the
// digits 0 and 128 of a number in base 256, whose digits have its remainder by 255 as sum.
pub fn escapes_add(x: u64, n: usize) -> usize
    requires { (1 ≤ n) × (n ≤ 8) }
    ensures { n + result ≡ length (text_body (le_bytes n x)) }
{
    let marks = lanes::not_raw(x) & lanes::high_bits(n);
    let z = x & 0x7F7F7F7F7F7F7F7F;
    // below hex 20
    let low = marks & !(z + 0x6060606060606060);
    if low == 0 {
        return (marks / 128 % 255) as usize;
    }
    // without a letter: not NUL, and not 7 to 13
    let hex = low
        & ((z + 0x7F7F7F7F7F7F7F7F) ^ (z + 0x7979797979797979) ^ (z + 0x7272727272727272));
    ((marks / 128 + hex / 64) % 255) as usize
}
