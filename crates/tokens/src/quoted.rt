// Quoted text and clobs, read: the bytes that they mean are written as they are read.
ghost use Rattle.std.specs.Prelude.{◌≡◌, [], ◌∷◌, suc, ◌+◌, ◌≤◌, ◌<◌, length, drop, IfSome};
ghost use Rattle.std.proofs.Math.Option.{some};
ghost use Rattle.output.specs.Logic.{then};
ghost use Rattle.output.specs.Wrote.{Wrote, limit};
ghost use Rattle.text_rules.specs.Utf8.{utf8};
ghost use Rattle.text_rules.specs.Escapes.{letter, hex_value, hex};
ghost use Rattle.tokens.specs.Quoted.{scalar_escape, letter_escape, escape, raw_rule, raw, character, quoted, byte_escape, clob_byte, clob_bytes, clob};
ghost use Rattle.tokens.specs.Steps.{Copies, HexAt, is_plain, is_plain_byte, RunTo};
ghost use Rattle.text_rules.specs.Reading.{found};

// Something was read up to `at`, and its bytes written up to `pos`.
#[derive(Clone, Copy)]
pub struct Step {
    pub at: usize,
    pub pos: usize,
}

// ---- escapes

// What a letter behind a backslash stands for.
#[tactic(auto, using(std::proofs::lemmas::Bool::Decides::nat_tests), unfolding(text_rules::specs::Escapes::letter))]
fn letter_value(b: u8) -> Option<u8>
    ensures { found result ≡ letter b }
{
    match b {
        b'0' => Some(0),
        b'a' => Some(7),
        b'b' => Some(8),
        b't' => Some(9),
        b'n' => Some(10),
        b'v' => Some(11),
        b'f' => Some(12),
        b'r' => Some(13),
        b'\\' | b'"' | b'\'' | b'/' | b'?' => Some(b),
        _ => None,
    }
}

// The value of a hex digit of either case.
#[tactic(auto, using(std::proofs::lemmas::Bool::Decides::nat_tests), unfolding(text_rules::specs::Escapes::hex_value))]
fn hex_value(b: u8) -> Option<u8>
    ensures digit { found result ≡ hex_value b }
    ensures below { IfSome result (λ d. d < 16) }
{
    match b {
        b'0'..=b'9' => Some(b - b'0'),
        b'A'..=b'F' => Some(10 + (b - b'A')),
        b'a'..=b'f' => Some(10 + (b - b'a')),
        _ => None,
    }
}

// The w hex digits at a place.
fn hex_at(text: &[u8], at: usize, w: usize) -> Option<u32>
    requires { (at ≤ length text.now) × (w ≤ 8) }
    ensures { HexAt text.now at w result }
{
    let mut v: u32 = 0;
    for i in 0..w {
        if text.len() - at <= i {
            return None;
        }
        let d = hex_value(text[at + i])?;
        v = v * 16 + d as u32;
    }
    Some(v)
}

// The UTF-8 of a scalar value.
fn put_utf8(buf: &mut [u8], pos: usize, v: u32) -> usize
    requires { v < 0x11_0000 }
    ensures { Wrote buf.old buf.new pos result (utf8 v) }
{
    if v < 0x80 {
        return output::put(buf, pos, v as u8);
    }
    if v < 0x800 {
        let a = output::put(buf, pos, (0xC0 + v / 64) as u8);
        return output::put(buf, a, (0x80 + v % 64) as u8);
    }
    if v < 0x1_0000 {
        let a = output::put(buf, pos, (0xE0 + v / 4096) as u8);
        let b = output::put(buf, a, (0x80 + v / 64 % 64) as u8);
        return output::put(buf, b, (0x80 + v % 64) as u8);
    }
    let a = output::put(buf, pos, (0xF0 + v / 262144) as u8);
    let b = output::put(buf, a, (0x80 + v / 4096 % 64) as u8);
    let c = output::put(buf, b, (0x80 + v / 64 % 64) as u8);
    output::put(buf, c, (0x80 + v % 64) as u8)
}

// The scalar value that the w hex digits at a place name.
fn scalar_at(text: &[u8], at: usize, w: usize, buf: &mut [u8], pos: usize) -> Option<Step>
    requires { (at ≤ length text.now) × (w ≤ 8) }
    ensures { Copies text.now at buf.old buf.new pos (scalar_escape w (drop at text.now)) result }
{
    let v = hex_at(text, at, w)?;
    if !text_rules::utf8::is_scalar(v) {
        return None;
    }
    let p = put_utf8(buf, pos, v);
    Some(Step { at: at + w, pos: p })
}

// A short letter at a place.
fn letter_at(text: &[u8], at: usize, buf: &mut [u8], pos: usize) -> Option<Step>
    requires { at < length text.now }
    ensures { Copies text.now (suc at) buf.old buf.new pos (letter_escape (drop at text.now)) result }
{
    let v = letter_value(text[at])?;
    let p = output::put(buf, pos, v);
    Some(Step { at: at + 1, pos: p })
}

// What stands behind a backslash in quoted text.
fn escape_at(text: &[u8], at: usize, buf: &mut [u8], pos: usize) -> Option<Step>
    requires { at ≤ length text.now }
    ensures { Copies text.now (suc at) buf.old buf.new pos (escape (drop at text.now)) result }
{
    if at == text.len() {
        return None;
    }
    match text[at] {
        b'x' => scalar_at(text, at + 1, 2, buf, pos),
        b'u' => scalar_at(text, at + 1, 4, buf, pos),
        b'U' => scalar_at(text, at + 1, 8, buf, pos),
        _ => letter_at(text, at, buf, pos),
    }
}

// ---- quoted text

// What a raw character may start with; `old`: by 01's rule, else by Ion's. No LF and no CR by either.
#[tactic(auto, using(std::proofs::lemmas::Bool::Decides::nat_tests), unfolding(crate::specs::Quoted::raw_rule, crate::specs::Quoted::old_raw, crate::specs::Quoted::strict_raw))]
fn is_raw(b: u8, old: bool) -> bool
    ensures { result ≡ raw_rule old b }
{
    match b {
        0x20.. | 9 | 11 | 12 => true,
        10 | 13 => false,
        _ => old,
    }
}

// A raw character: valid UTF-8.
fn raw_at(text: &[u8], at: usize, old: bool, buf: &mut [u8], pos: usize) -> Option<Step>
    requires { at < length text.now }
    ensures { Copies text.now (suc at) buf.old buf.new pos (raw (raw_rule old) (drop at text.now)) result }
{
    if !is_raw(text[at], old) {
        return None;
    }
    let n = text_rules::utf8::char_len(text, at);
    if n == 0 {
        return None;
    }
    let end = at + n;
    let p = output::put_bytes(buf, pos, &text[at..end]);
    Some(Step { at: end, pos: p })
}

// One character of quoted text.
fn character_at(text: &[u8], at: usize, old: bool, buf: &mut [u8], pos: usize) -> Option<Step>
    requires { at < length text.now }
    ensures { Copies text.now (suc at) buf.old buf.new pos (character (raw_rule old) (drop at text.now)) result }
{
    if text[at] == b'\\' {
        return escape_at(text, at + 1, buf, pos);
    }
    raw_at(text, at, old, buf, pos)
}

// A byte that is a character as it stands, by both rules, where the mark is q. Most are from hex 20 to 7F, so these are asked for first: one `match`
// takes a third more instructions a byte.
#[tactic(auto, using(std::proofs::lemmas::Bool::Decides::nat_tests), unfolding(crate::specs::Steps::is_plain, crate::specs::Quoted::strict_raw))]
fn is_plain(b: u8, q: u8) -> bool
    ensures { result ≡ is_plain q b }
{
    if 0x20 <= b && b < 0x80 {
        return b != b'\\' && b != q;
    }
    matches!(b, 9 | 11 | 12) && b != q
}

// Where the looking for plain bytes stops at the latest: what was looked at is copied while it is near. Not one with the converter's: it may be asked at
// the end, where that may not, and so promises no step.
fn block_end(at: usize, end: usize) -> usize
    requires { at ≤ end }
    ensures { (at ≤ result) × (result ≤ end) }
{
    end.min(at.saturating_add(4096))
}

// The end of the plain bytes at a place, or of those in its block.
fn plain_end(text: &[u8], at: usize, q: u8) -> usize
    requires { at ≤ length text.now }
    ensures { RunTo (is_plain q) text.now at result }
{
    let stop = block_end(at, text.len());
    for i in at..stop {
        if !is_plain(text[i], q) {
            return i;
        }
    }
    stop
}

// Quoted text behind its mark q, through the next; `old`: by 01's raw rule. A run of plain bytes is copied at once.
pub fn characters_at(
    text: &[u8],
    at: usize,
    q: u8,
    old: bool,
    buf: &mut [u8],
    pos: usize,
) -> Option<Step>
    requires { at ≤ length text.now }
    ensures { Copies text.now (suc at) buf.old buf.new pos (quoted (raw_rule old) q (drop at text.now)) result }
{
    let mut i = at;
    let mut p = pos;
    // A walk: the step is the run's length and that of the character behind it.
    loop {
        let e = plain_end(text, i, q);
        p = output::put_bytes(buf, p, &text[i..e]);
        if e == text.len() {
            return None;
        }
        if text[e] == q {
            return Some(Step { at: e + 1, pos: p });
        }
        let s = character_at(text, e, old, buf, p)?;
        i = s.at;
        p = s.pos;
    }
}

// ---- clobs

// The byte that two hex digits at a place name.
fn hex_byte_at(text: &[u8], at: usize, buf: &mut [u8], pos: usize) -> Option<Step>
    requires { at ≤ length text.now }
    ensures { Copies text.now at buf.old buf.new pos (then (hex 2 0 (drop at text.now)) (λ v. some (v.0 ∷ [], v.1))) result }
{
    let v = hex_at(text, at, 2)?;
    let p = output::put(buf, pos, v as u8);
    Some(Step { at: at + 2, pos: p })
}

// What stands behind a backslash in a clob.
fn byte_escape_at(text: &[u8], at: usize, buf: &mut [u8], pos: usize) -> Option<Step>
    requires { at ≤ length text.now }
    ensures { Copies text.now (suc at) buf.old buf.new pos (byte_escape (drop at text.now)) result }
{
    if at == text.len() {
        return None;
    }
    if text[at] == b'x' {
        return hex_byte_at(text, at + 1, buf, pos);
    }
    letter_at(text, at, buf, pos)
}

// One byte of a clob.
fn clob_byte_at(text: &[u8], at: usize, buf: &mut [u8], pos: usize) -> Option<Step>
    requires { at < length text.now }
    ensures { Copies text.now (suc at) buf.old buf.new pos (clob_byte (drop at text.now)) result }
{
    match text[at] {
        b'\\' => byte_escape_at(text, at + 1, buf, pos),
        b @ 0x20..=0x7E => {
            let p = output::put(buf, pos, b);
            Some(Step { at: at + 1, pos: p })
        }
        _ => None,
    }
}

// A byte that stands for itself in a clob.
#[tactic(auto, using(std::proofs::lemmas::Bool::Decides::nat_tests), unfolding(crate::specs::Steps::is_plain_byte))]
fn is_plain_byte(b: u8) -> bool
    ensures { result ≡ is_plain_byte b }
{
    match b {
        b'\\' | b'"' => false,
        0x20..=0x7E => true,
        _ => false,
    }
}

// The end of the plain bytes at a place, or of those in its block.
fn plain_bytes_end(text: &[u8], at: usize) -> usize
    requires { at ≤ length text.now }
    ensures { RunTo is_plain_byte text.now at result }
{
    let stop = block_end(at, text.len());
    for i in at..stop {
        if !is_plain_byte(text[i]) {
            return i;
        }
    }
    stop
}

// The bytes of a clob, through the double quote mark: a run of plain bytes is copied at once.
fn clob_bytes_at(text: &[u8], at: usize, buf: &mut [u8], pos: usize) -> Option<Step>
    requires { at ≤ length text.now }
    ensures { Copies text.now (suc at) buf.old buf.new pos (clob_bytes (suc (length (drop at text.now))) (drop at text.now)) result }
{
    let mut i = at;
    let mut p = pos;
    // A walk: the step is the run's length and that of the escape behind it.
    loop {
        let e = plain_bytes_end(text, i);
        p = output::put_bytes(buf, p, &text[i..e]);
        if e == text.len() {
            return None;
        }
        if text[e] == b'"' {
            return Some(Step { at: e + 1, pos: p });
        }
        let s = clob_byte_at(text, e, buf, p)?;
        i = s.at;
        p = s.pos;
    }
}

// A clob: `{{"`, bytes, `"}}`.
pub fn clob_at(text: &[u8], at: usize, buf: &mut [u8], pos: usize) -> Option<Step>
    requires { at ≤ length text.now }
    ensures { Copies text.now (suc at) buf.old buf.new pos (clob (drop at text.now)) result }
{
    if !text_rules::words::word_stands(text, at, b"{{\"") {
        return None;
    }
    let s = clob_bytes_at(text, at + 3, buf, pos)?;
    if !text_rules::words::word_stands(text, s.at, b"}}") {
        return None;
    }
    Some(Step {
        at: s.at + 2,
        pos: s.pos,
    })
}
