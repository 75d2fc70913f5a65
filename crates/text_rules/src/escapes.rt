// Escapes, written: the table of escape kinds, and the body of quoted text and strings.
ghost use Rattle.std.specs.Prelude.{◌≡◌, true, false, ◌||◌, [], ◌∷◌, eqb, length, drop, ◌+◌, ◌*◌, ◌<◌, ◌≤◌};
ghost use Rattle.output.specs.Logic.{byte};
ghost use Rattle.output.specs.Wrote.{Wrote, limit};
ghost use Rattle.text_rules.specs.Escapes.{letter_of, has_letter, EscapeTable, hex_digit, hex_escape, has_hex, text_escape, text_body};

// The kind of each byte in a clob: 0 raw, 1 a short letter, 2 `\x` with two hex digits. It is lent to the loop, since a constant table that is
// indexed is built anew at each use.
const ESCAPES: [u8; 256] = [
    1, // NUL
    2, 2, 2, 2, 2, 2, 1, // 7
    1, // 8
    1, // tab
    1, // LF
    1, // 11
    1, // 12
    1, // CR
    2, 2, 2, 2, 2, 2, 2, 2, 2, 2, 2, 2, 2, 2, 2, 2, 2, 2, 0, // space, hex 20
    0, 1, // "
    0, 0, 0, 0, 0, 0, 0, 0, 0, 0, 0, 0, 0, 0, 0, 0, 0, 0, 0, 0, 0, 0, 0, 0, 0, 0, 0, 0, 0, 0, 0, 0,
    0, 0, 0, 0, 0, 0, 0, 0, 0, 0, 0, 0, 0, 0, 0, 0, 0, 0, 0, 0, 0, 0, 0, 0, 0, 1, // backslash
    0, 0, 0, 0, 0, 0, 0, 0, 0, 0, 0, 0, 0, 0, 0, 0, 0, 0, 0, 0, 0, 0, 0, 0, 0, 0, 0, 0, 0, 0, 0, 0,
    0, 0, // hex 7E
    2, // hex 7F
    2, 2, 2, 2, 2, 2, 2, 2, 2, 2, 2, 2, 2, 2, 2, 2, 2, 2, 2, 2, 2, 2, 2, 2, 2, 2, 2, 2, 2, 2, 2, 2,
    2, 2, 2, 2, 2, 2, 2, 2, 2, 2, 2, 2, 2, 2, 2, 2, 2, 2, 2, 2, 2, 2, 2, 2, 2, 2, 2, 2, 2, 2, 2, 2,
    2, 2, 2, 2, 2, 2, 2, 2, 2, 2, 2, 2, 2, 2, 2, 2, 2, 2, 2, 2, 2, 2, 2, 2, 2, 2, 2, 2, 2, 2, 2, 2,
    2, 2, 2, 2, 2, 2, 2, 2, 2, 2, 2, 2, 2, 2, 2, 2, 2, 2, 2, 2, 2, 2, 2, 2, 2, 2, 2, 2, 2, 2, 2, 2,
];

// The table, for a caller that lends it.
pub fn escapes() -> [u8; 256]
    ensures { EscapeTable result }
{
    ESCAPES
}

// The letter behind a backslash; the backslash and the quote marks stand for themselves.
#[tactic(auto, unfolding(crate::specs::Escapes::letter_of))]
fn letter_of(b: u8) -> u8
    ensures { result ≡ letter_of b }
{
    match b {
        0 => b'0',
        7 => b'a',
        8 => b'b',
        9 => b't',
        10 => b'n',
        11 => b'v',
        12 => b'f',
        13 => b'r',
        _ => b,
    }
}

// A backslash and the letter of b.
pub fn put_letter(buf: &mut [u8], pos: usize, b: u8) -> usize
    ensures { Wrote buf.old buf.new pos result (byte "\\" ∷ letter_of b ∷ []) }
{
    let p = output::put(buf, pos, b'\\');
    output::put(buf, p, letter_of(b))
}

// A lower-case hex digit.
#[tactic(auto, unfolding(crate::specs::Escapes::hex_digit))]
fn hex_digit(d: u8) -> u64
    requires { d < 16 }
    ensures { (result ≡ hex_digit d) × (result < 256) }
{
    let c = if d < 10 { b'0' + d } else { b'a' + (d - 10) };
    u64::from(c)
}

// `\x` and two hex digits, as the bytes of a word.
pub fn put_hex(buf: &mut [u8], pos: usize, b: u8) -> usize
    ensures { Wrote buf.old buf.new pos result (hex_escape b) }
{
    let w = 0x785C + 65536 * hex_digit(b / 16) + 16777216 * hex_digit(b % 16);
    output::put_le(buf, pos, w, 4)
}

// Whether a byte of text is escaped by hex digits. These few tests, and those of the next, take less time than a table that is built anew for each text,
// and as chains less than as `matches!` (escapes: 1.05 to 1.27 of the time).
fn takes_hex(b: u8) -> bool
    ensures { result ≡ has_hex b }
{
    if 0x20 <= b {
        return false;
    }
    if b <= 6 {
        return 1 <= b;
    }
    0x0E <= b
}

// Whether a byte of text is escaped by a letter.
fn takes_letter(b: u8) -> bool
    ensures { result ≡ has_letter b || eqb b (byte "'") }
{
    if 0x20 <= b {
        if b == b'"' {
            return true;
        }
        if b == b'\\' {
            return true;
        }
        return b == b'\'';
    }
    if b == 0 {
        return true;
    }
    if b < 7 {
        return false;
    }
    b <= 13
}

// One byte of text.
#[tactic(auto, unfolding(crate::specs::Escapes::text_escape))]
fn put_text_byte(buf: &mut [u8], pos: usize, b: u8) -> usize
    ensures { Wrote buf.old buf.new pos result (text_escape b) }
{
    if takes_letter(b) {
        put_letter(buf, pos, b)
    } else if takes_hex(b) {
        put_hex(buf, pos, b)
    } else {
        output::put(buf, pos, b)
    }
}

// The bytes of s one by one, as far as there is room. Not one with the converter's `put_converted_bytes`: that calls another function and meets another
// definition.
fn put_text_clipped(buf: &mut [u8], pos: usize, s: &[u8]) -> usize
    ensures { Wrote buf.old buf.new pos result (text_body s.now) }
{
    let mut p = output::bounded(pos);
    for b in s {
        p = put_text_byte(buf, p, *b);
    }
    p
}

// One byte of text, where there is room for it.
#[tactic(auto, unfolding(crate::specs::Escapes::text_escape))]
fn store_text_byte(buf: &mut [u8], pos: usize, b: u8) -> usize
    requires { pos + length (text_escape b) ≤ length buf.old }
    ensures { Wrote buf.old buf.new pos result (text_escape b) }
{
    if takes_letter(b) {
        buf[pos] = b'\\';
        buf[pos + 1] = letter_of(b);
        return pos + 2;
    }
    if takes_hex(b) {
        return put_hex(buf, pos, b);
    }
    buf[pos] = b;
    pos + 1
}

// The bytes of s one by one, where there is room for all: but for hex digits nothing is asked of the buffer.
fn store_text(buf: &mut [u8], pos: usize, s: &[u8]) -> usize
    requires { pos + length (text_body s.now) ≤ length buf.old }
    ensures { Wrote buf.old buf.new pos result (text_body s.now) }
{
    let mut p = pos;
    for b in s {
        p = store_text_byte(buf, p, *b);
    }
    p
}

// No only where no byte is escaped by hex digits, so that none takes more than two bytes. There is no way out of the loop, so that the compiler makes it a
// vector loop.
fn any_hex(s: &[u8]) -> bool
    ensures { result ≡ false → length (text_body s.now) ≤ 2 * length s.now }
{
    let mut any = false;
    for b in s {
        any |= takes_hex(*b);
    }
    any
}

// The bytes of s one by one. Most rooms have four bytes for each; a room as long as the text, which the lengths are for, has two where letters escape.
// `store_text` is called at two places, so that it is not built in.
fn put_text_escaped(buf: &mut [u8], pos: usize, s: &[u8]) -> usize
    ensures { Wrote buf.old buf.new pos result (text_body s.now) }
{
    if pos <= buf.len() {
        let room = buf.len() - pos;
        if s.len() <= room / 4 {
            return store_text(buf, pos, s);
        }
        if s.len() <= room / 2 {
            if !any_hex(s) {
                return store_text(buf, pos, s);
            }
        }
    }
    put_text_clipped(buf, pos, s)
}

// A byte that is not raw in text: below hex 20, a quote mark or a backslash.
#[tactic(auto, unfolding(crate::specs::Escapes::has_letter, crate::specs::Escapes::has_hex, crate::specs::Escapes::text_escape))]
fn is_escaped(b: u8) -> bool
    ensures { result ≡ false → text_escape b ≡ b ∷ [] }
{
    matches!(b, 0..=0x1F | b'"' | b'\'' | b'\\')
}

// No byte needs an escape, one after the other.
fn raw_bytes(s: &[u8]) -> bool
    ensures { result ≡ true → text_body s.now ≡ s.now }
{
    for b in s {
        if is_escaped(*b) {
            return false;
        }
    }
    true
}

// Some byte may need an escape. There is no way out of the loop, so that the compiler makes it a vector loop.
fn any_escaped(s: &[u8]) -> bool
    ensures { result ≡ false → text_body s.now ≡ s.now }
{
    let mut any = false;
    for b in s {
        any |= is_escaped(*b);
    }
    any
}

// No byte needs an escape: many at a time, then words of eight, and the last eight again. Only a yes is promised. The loop is a walk: the step is a
// word's eight bytes.
fn is_raw(s: &[u8]) -> bool
    ensures { result ≡ true → text_body s.now ≡ s.now }
{
    let n = s.len();
    if n < 8 {
        return raw_bytes(s);
    }
    let mut i = n / 32 * 32;
    if any_escaped(&s[..i]) {
        return false;
    }
    while i + 8 < n {
        if !lanes::is_raw_word(output::word_at(s, i), 8) {
            return false;
        }
        i += 8;
    }
    lanes::is_raw_word(output::word_at(s, n - 8), 8)
}

// The body of quoted text and strings: NUL, 7 to 13, the backslash and both quote marks escaped by a letter, the other control characters below hex 20
// by hex digits, other characters raw.
pub fn format_escaped_text_body(buf: &mut [u8], pos: usize, s: &[u8]) -> usize
    ensures { Wrote buf.old buf.new pos result (text_body s.now) }
{
    if is_raw(s) {
        output::put_bytes(buf, pos, s)
    } else {
        put_text_escaped(buf, pos, s)
    }
}
