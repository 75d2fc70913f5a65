// The length of a clob's text.
ghost use Rattle.std.specs.Prelude.{◌+◌, ◌<◌, ◌≤◌, ◌^◌, ◌≡◌, length};
ghost use Rattle.text_rules.specs.Escapes.{clob_escape, clob_body};
ghost use Rattle.text_rules.specs.Text.{clob_text};

// By how many bytes the text of a byte is longer than it.
fn clob_escape(b: u8) -> usize
    ensures { (1 + result ≡ length (clob_escape b)) × (result ≤ 3) }
{
    if b < 0x20 {
        if b == 0 {
            return 1;
        }
        if b < 7 {
            return 3;
        }
        if b < 14 {
            return 1;
        }
        return 3;
    }
    if 0x7E < b {
        return 3;
    }
    if b == b'"' {
        return 1;
    }
    if b == b'\\' {
        return 1;
    }
    0
}

// By how many bytes the body is longer than s. There is no way out of the loop, so that the compiler makes it a vector loop.
fn clob_escapes(s: &[u8]) -> usize
    requires { length s.now < 2 ^ 32 }
    ensures { length s.now + result ≡ length (clob_body s.now) }
{
    let mut c: usize = 0;
    for b in s {
        c += clob_escape(*b);
    }
    c
}

// With `{{"` and `"}}`. Most clobs are raw, which a quicker test tells.
pub fn clob_length(s: &[u8]) -> usize
    requires { length s.now < 2 ^ 32 }
    ensures { result ≡ length (clob_text s.now) }
{
    let n = s.len() + 6;
    if !text_rules::clobs::any_clob_suspect(s) {
        return n;
    }
    n + clob_escapes(s)
}
