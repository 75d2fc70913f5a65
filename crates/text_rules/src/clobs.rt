// Clobs, written: `{{"`, bytes, `"}}`.
ghost use Rattle.std.specs.Prelude.{◌≡◌, false, [], ◌∷◌, ◌≤◌};
ghost use Rattle.output.specs.Wrote.{Wrote, limit};
ghost use Rattle.text_rules.specs.Escapes.{escape_kind, EscapeTable, clob_escape, clob_body};
ghost use Rattle.text_rules.specs.Text.{clob_text};

// One byte of a clob, whose kind is at hand.
fn put_clob_byte(buf: &mut [u8], pos: usize, b: u8, kind: u8) -> usize
    requires { kind ≡ escape_kind b }
    ensures { Wrote buf.old buf.new pos result (clob_escape b) }
{
    if kind == 1 {
        return crate::escapes::put_letter(buf, pos, b);
    }
    if kind == 2 {
        return crate::escapes::put_hex(buf, pos, b);
    }
    output::put(buf, pos, b)
}

// The bytes of s one by one, by the table t. The kinds are numbers and the loop counts: with an enum and a `for` clobs took 13 % more time.
fn put_clob_by(buf: &mut [u8], pos: usize, s: &[u8], t: &[u8; 256]) -> usize
    requires { EscapeTable t.now }
    ensures { Wrote buf.old buf.new pos result (clob_body s.now) }
{
    let mut p = output::bounded(pos);
    let mut i = 0;
    while i < s.len() {
        let b = s[i];
        p = put_clob_byte(buf, p, b, t[b as usize]);
        i += 1;
    }
    p
}

// The same with the crate's table.
fn put_clob_escaped(buf: &mut [u8], pos: usize, s: &[u8]) -> usize
    ensures { Wrote buf.old buf.new pos result (clob_body s.now) }
{
    let t = crate::escapes::escapes();
    put_clob_by(buf, pos, s, &t)
}

// A byte that is not raw in a clob.
#[tactic(auto, unfolding(crate::specs::Escapes::has_letter, crate::specs::Escapes::clob_escape))]
fn clob_suspect(b: u8) -> bool
    ensures { result ≡ false → clob_escape b ≡ b ∷ [] }
{
    matches!(b, 0..=0x1F | 0x7F..=0xFF | b'"' | b'\\')
}

// Some byte may not be raw. There is no way out of the loop, so that the compiler makes it a vector loop.
pub fn any_clob_suspect(s: &[u8]) -> bool
    ensures { result ≡ false → clob_body s.now ≡ s.now }
{
    let mut any = false;
    for b in s {
        any |= clob_suspect(*b);
    }
    any
}

// The bytes between the marks.
fn format_clob_body(buf: &mut [u8], pos: usize, s: &[u8]) -> usize
    ensures { Wrote buf.old buf.new pos result (clob_body s.now) }
{
    if any_clob_suspect(s) {
        put_clob_escaped(buf, pos, s)
    } else {
        output::put_bytes(buf, pos, s)
    }
}

// The marks too, the first byte lowest.
pub fn format_clob(buf: &mut [u8], pos: usize, s: &[u8]) -> usize
    ensures { Wrote buf.old buf.new pos result (clob_text s.now) }
{
    let p = output::put_le(buf, pos, 0x227B7B, 3);
    let e = format_clob_body(buf, p, s);
    output::put_le(buf, e, 0x7D7D22, 3)
}
