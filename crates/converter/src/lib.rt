// The converter: a text of the old grammar, which has control characters raw, written again as one of the strict grammar.
#![tactic(auto)]

ghost use Rattle.std.specs.Prelude.{◌≡◌, false, ◌+◌, ◌*◌, ◌<◌, ◌≤◌, length};
ghost use Rattle.output.specs.Wrote.{Wrote, limit};
ghost use Rattle.tape.specs.Answer.{outcome};
ghost use Rattle.converter.specs.Convert.{replaced, replacement, converted};
ghost use Rattle.converter.specs.Outcome.{is_old, answer, leaves};

use tape::answer::Answer;

// Whether a byte is written as `\x` and two hex digits.
#[tactic(auto, using(std::proofs::lemmas::Bool::Decides::nat_tests), unfolding(crate::specs::Convert::replaced, tokens::specs::Quoted::old_raw, tokens::specs::Quoted::strict_raw))]
fn is_replaced(b: u8) -> bool
    ensures { result ≡ replaced b }
{
    matches!(b, 0..=8 | 0x0E..=0x1F)
}

// Whether any byte is replaced. There is no way out of the loop, so that the compiler makes it a vector loop.
fn any_replaced(s: &[u8]) -> bool
    ensures { result ≡ false → converted s.now ≡ s.now }
{
    let mut any = false;
    for b in s {
        any = any | is_replaced(*b);
    }
    any
}

// 1 for a byte that is replaced, which takes three bytes more.
fn count_byte(b: u8) -> usize
    ensures { (1 + 3 * result ≡ length (replacement b)) × (result ≤ 1) }
{
    if is_replaced(b) { 1 } else { 0 }
}

// How many bytes are replaced, one by one. A sum becomes a vector loop: `filter` and `count` do not, and take 13 % more branches in converting.
fn count_bytes(s: &[u8]) -> usize
    ensures { length s.now + 3 * result ≡ length (converted s.now) }
{
    let mut c = 0;
    for b in s {
        c += count_byte(*b);
    }
    c
}

// The same, where a block is likely to have none.
fn count_block(s: &[u8]) -> usize
    ensures { length s.now + 3 * result ≡ length (converted s.now) }
{
    if any_replaced(s) { count_bytes(s) } else { 0 }
}

// The end of the block at a place: what was looked at is copied while it is near.
fn block_end(at: usize, end: usize) -> usize
    requires { at < end }
    ensures { (at < result) × (result ≤ end) }
{
    end.min(at.saturating_add(1024))
}

// How many bytes of a text are replaced.
pub fn replaced_count(s: &[u8]) -> usize
    ensures { length s.now + 3 * result ≡ length (converted s.now) }
{
    let mut c: usize = 0;
    let mut i: usize = 0;
    // A walk: the step is a block.
    while i < s.len() {
        let e = block_end(i, s.len());
        c = c + count_block(&s[i..e]);
        i = e;
    }
    c
}

// One byte.
fn put_converted_byte(buf: &mut [u8], pos: usize, b: u8) -> usize
    ensures { Wrote buf.old buf.new pos result (replacement b) }
{
    if is_replaced(b) {
        return text_rules::escapes::put_hex(buf, pos, b);
    }
    output::put(buf, pos, b)
}

// The bytes of s, one by one.
fn put_converted_bytes(buf: &mut [u8], pos: usize, s: &[u8]) -> usize
    ensures { Wrote buf.old buf.new pos result (converted s.now) }
{
    let mut p = output::bounded(pos);
    for b in s {
        p = put_converted_byte(buf, p, *b);
    }
    p
}

// The same, where a block is likely to stay as it is.
fn put_converted_block(buf: &mut [u8], pos: usize, s: &[u8]) -> usize
    ensures { Wrote buf.old buf.new pos result (converted s.now) }
{
    if !any_replaced(s) {
        return output::put_bytes(buf, pos, s);
    }
    put_converted_bytes(buf, pos, s)
}

// The whole text, block by block.
pub fn put_converted(buf: &mut [u8], pos: usize, s: &[u8]) -> usize
    ensures { Wrote buf.old buf.new pos result (converted s.now) }
{
    let mut p = output::bounded(pos);
    let mut i: usize = 0;
    // A walk: the step is a block.
    while i < s.len() {
        let e = block_end(i, s.len());
        p = put_converted_block(buf, p, &s[i..e]);
        i = e;
    }
    p
}

// The output of a text of which c bytes are replaced. Most texts have none: these are copied without being looked at again.
fn put_output(buf: &mut [u8], s: &[u8], c: usize) -> usize
    requires { length s.now + 3 * c ≡ length (converted s.now) }
    ensures { Wrote buf.old buf.new 0 result (converted s.now) }
{
    if c == 0 {
        return output::put_bytes(buf, 0, s);
    }
    put_converted(buf, 0, s)
}

// The text is in the old grammar, however long its tape is.
pub fn is_old(text: &[u8]) -> bool
    ensures { result ≡ is_old text.now }
{
    let mut spare = [0u8; 1];
    reader::write_tape(text, true, &mut spare).is_some()
}

// Writes a text of the old grammar again, each raw control character that the strict grammar refuses as `\x` and two hex digits: the number of bytes
// written, or refusal 13 or 14, which leave the buffer as it was.
pub fn convert(text: &[u8], out: &mut [u8]) -> Answer
    ensures answer { outcome result ≡ answer text.now (length out.old) }
    ensures buffer { out.new ≡ leaves text.now out.old }
{
    if !is_old(text) {
        return Answer::OutsideOldGrammar;
    }
    if out.len() < text.len() {
        return Answer::OutputTooLong;
    }
    let c = replaced_count(text);
    if (out.len() - text.len()) / 3 < c {
        return Answer::OutputTooLong;
    }
    let n = put_output(out, text, c);
    Answer::Count(n)
}
