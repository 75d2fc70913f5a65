// What the Rust's `text_formatter` writes of scalars: symbols, strings, nulls and bools.
ghost use Rattle.std.specs.Prelude.{◌+◌, ◌≤◌, ◌≡◌, true, false, [], ◌∷◌, ◌++◌, length, take, drop};
ghost use Rattle.output.specs.Logic.{byte};
ghost use Rattle.output.specs.Wrote.{Wrote, limit, le_bytes};
ghost use Rattle.text_rules.specs.Text.{marked, symbol_text, symbol_id_text, string_text, null_text, bool_text};
ghost use Rattle.text_rules.specs.WordSteps.{special, is_bare};

use crate::words::{
    token_is_identifier, token_is_keyword, token_resembles_symbol_id,
    token_resembles_version_marker,
};

// A null of a type: `null`, or `null.` and the type. A number past 12 is no type, and has no name.
// No twin of `null_length` of `measure`: that has lengths.
#[tactic(auto, unfolding(crate::specs::Text::null_text, crate::specs::Text::type_name))]
fn spell_null(t: u8) -> &'static [u8]
    ensures { result.now ≡ null_text t }
{
    match t {
        0 => b"null",
        1 => b"null.bool",
        2 => b"null.int",
        3 => b"null.float",
        4 => b"null.decimal",
        5 => b"null.timestamp",
        6 => b"null.symbol",
        7 => b"null.string",
        8 => b"null.clob",
        9 => b"null.blob",
        10 => b"null.list",
        11 => b"null.sexp",
        12 => b"null.struct",
        _ => b"null.",
    }
}

pub fn format_null(buf: &mut [u8], pos: usize, t: u8) -> usize
    ensures { Wrote buf.old buf.new pos result (null_text t) }
{
    output::put_bytes(buf, pos, spell_null(t))
}

#[tactic(auto, unfolding(crate::specs::Text::bool_text))]
pub fn format_bool(buf: &mut [u8], pos: usize, b: bool) -> usize
    ensures { Wrote buf.old buf.new pos result (bool_text b) }
{
    // `true` and `false`, the first letter lowest
    if b {
        output::put_le(buf, pos, 0x65757274, 4)
    } else {
        output::put_le(buf, pos, 0x65736C6166, 5)
    }
}

// `$` and the number.
pub fn format_symbol_id(buf: &mut [u8], pos: usize, n: u32) -> usize
    ensures { Wrote buf.old buf.new pos result (symbol_id_text n) }
{
    let p = output::put(buf, pos, b'$');
    crate::digits::put_digits(buf, p, n as u64)
}

// Text between two marks, with its escapes.
fn put_marked(buf: &mut [u8], pos: usize, mark: u8, text: &[u8]) -> usize
    ensures { Wrote buf.old buf.new pos result (marked mark text.now) }
{
    let p = output::put(buf, pos, mark);
    let q = crate::escapes::format_escaped_text_body(buf, p, text);
    output::put(buf, q, mark)
}

#[tactic(auto, unfolding(crate::specs::Text::string_text))]
pub fn format_string(buf: &mut [u8], pos: usize, text: &[u8]) -> usize
    ensures { Wrote buf.old buf.new pos result (string_text text.now) }
{
    put_marked(buf, pos, b'"', text)
}

// A byte that a quoted-only spelling starts with: `$`, or a keyword's first letter.
#[tactic(auto, unfolding(crate::specs::WordSteps::special))]
fn is_special(b: u8) -> bool
    ensures { result ≡ special b }
{
    matches!(b, b'$' | b't' | b'f' | b'n')
}

// Text that stands bare. An identifier that starts with no such byte is only looked through once.
#[tactic(auto, unfolding(crate::specs::WordSteps::is_bare))]
fn is_bare(text: &[u8]) -> bool
    ensures { result ≡ is_bare text.now }
{
    token_is_identifier(text)
        && (!is_special(text[0])
            || !(token_is_keyword(text)
                || token_resembles_symbol_id(text)
                || token_resembles_version_marker(text)))
}

// A symbol's text, where not every symbol text is quoted: bare where that is read back, else quoted.
pub fn format_symbol_token(buf: &mut [u8], pos: usize, text: &[u8]) -> usize
    ensures { Wrote buf.old buf.new pos result (symbol_text false text.now) }
{
    if is_bare(text) {
        output::put_bytes(buf, pos, text)
    } else {
        put_marked(buf, pos, b'\'', text)
    }
}

// The n lowest bytes of x between quote marks, with no escapes.
fn put_quoted_word(buf: &mut [u8], pos: usize, x: u64, n: usize) -> usize
    ensures { Wrote buf.old buf.new pos result (byte "'" ∷ (le_bytes n x ++ (byte "'" ∷ []))) }
{
    let p = output::put(buf, pos, b'\'');
    let q = output::put_le(buf, p, x, n);
    output::put(buf, q, b'\'')
}

// What `format_symbol_token` writes, of n bytes of s from a place on. Up to eight bytes, with as many in s, are looked through at once.
pub fn format_token_at(buf: &mut [u8], pos: usize, s: &[u8], from: usize, n: usize) -> usize
    requires n_in_bounds { from + n ≤ length s.now }
    ensures { Wrote buf.old buf.new pos result (symbol_text false (take n (drop from s.now))) }
{
    if 1 <= n && n <= 8 && from + 8 <= s.len() {
        let x = output::word_at(s, from);
        if crate::short_words::is_keyword_word(x, n) {
            return put_quoted_word(buf, pos, x, n);
        }
        if lanes::is_identifier_word(x, n) {
            if lanes::starts_with_letter(x) {
                return output::put_le(buf, pos, x, n);
            }
        } else if lanes::is_raw_word(x, n) {
            return put_quoted_word(buf, pos, x, n);
        }
    }
    format_symbol_token(buf, pos, &s[from..from + n])
}

// These bytes between quote marks, whatever they are: a symbol's text where every one is quoted. Up to eight bytes, with as many in s, that need no escape are put at once.
pub fn format_quoted_at(buf: &mut [u8], pos: usize, s: &[u8], from: usize, n: usize) -> usize
    requires n_in_bounds { from + n ≤ length s.now }
    ensures between { Wrote buf.old buf.new pos result (marked (byte "'") (take n (drop from s.now))) }
    ensures always { Wrote buf.old buf.new pos result (symbol_text true (take n (drop from s.now))) }
{
    if 1 <= n && n <= 8 && from + 8 <= s.len() {
        let x = output::word_at(s, from);
        if lanes::is_raw_word(x, n) {
            return put_quoted_word(buf, pos, x, n);
        }
    }
    put_marked(buf, pos, b'\'', &s[from..from + n])
}

// A symbol's text that is n bytes of s from a place on; `quoted`: every symbol text is quoted.
pub fn format_symbol_at(
    buf: &mut [u8],
    pos: usize,
    s: &[u8],
    from: usize,
    n: usize,
    quoted: bool,
) -> usize
    requires n_in_bounds { from + n ≤ length s.now }
    ensures { Wrote buf.old buf.new pos result (symbol_text quoted (take n (drop from s.now))) }
{
    if quoted {
        format_quoted_at(buf, pos, s, from, n)
    } else {
        format_token_at(buf, pos, s, from, n)
    }
}
