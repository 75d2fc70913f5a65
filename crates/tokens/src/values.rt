// Symbols, nulls and bools, read from a place of a text.
ghost use Rattle.std.specs.Prelude.{◌≡◌, suc, ◌≤◌, length, drop};
ghost use Rattle.output.specs.Wrote.{limit};
ghost use Rattle.tokens.specs.Quoted.{raw_rule};
ghost use Rattle.tokens.specs.Token.{type_of, null_behind, null, bool, bare_symbol, symbol};
ghost use Rattle.text_rules.specs.Reading.{Reads, found};
ghost use Rattle.tokens.specs.TokenSteps.{SymbolAt};

use crate::quoted::characters_at;
use text_rules::words::{Kind, name_end, same_word, word_at, word_end};

// A symbol's text was read up to `at` and written up to `pos`; or its number was read.
#[derive(Clone, Copy)]
pub enum SymbolRead {
    Text { at: usize, pos: usize },
    Id { n: u32, at: usize },
}

// The type that a name names behind `null.`.
#[tactic(auto, unfolding(crate::specs::Token::type_of))]
fn type_of(w: &[u8]) -> Option<u8>
    ensures { found result ≡ type_of w.now }
{
    if same_word(w, b"bool") {
        return Some(1);
    }
    if same_word(w, b"int") {
        return Some(2);
    }
    if same_word(w, b"float") {
        return Some(3);
    }
    if same_word(w, b"decimal") {
        return Some(4);
    }
    if same_word(w, b"timestamp") {
        return Some(5);
    }
    if same_word(w, b"symbol") {
        return Some(6);
    }
    if same_word(w, b"string") {
        return Some(7);
    }
    if same_word(w, b"clob") {
        return Some(8);
    }
    if same_word(w, b"blob") {
        return Some(9);
    }
    if same_word(w, b"list") {
        return Some(10);
    }
    if same_word(w, b"sexp") {
        return Some(11);
    }
    if same_word(w, b"struct") {
        return Some(12);
    }
    None
}

// The type behind `null` at a place, and where it ends.
pub fn null_behind(text: &[u8], at: usize) -> Option<(u8, usize)>
    requires { at ≤ length text.now }
    ensures { Reads text.now at (null_behind (drop at text.now)) (found result) }
{
    if at == text.len() || text[at] != b'.' {
        return Some((0, at));
    }
    let e = word_end(text, at + 1);
    let t = type_of(&text[at + 1..e])?;
    Some((t, e))
}

// A null of some type.
pub fn null_at(text: &[u8], at: usize) -> Option<(u8, usize)>
    requires { at ≤ length text.now }
    ensures { Reads text.now (suc at) (null (drop at text.now)) (found result) }
{
    let e = word_end(text, at);
    if !same_word(&text[at..e], b"null") {
        return None;
    }
    null_behind(text, e)
}

// true or false.
pub fn bool_at(text: &[u8], at: usize) -> Option<(bool, usize)>
    requires { at ≤ length text.now }
    ensures { Reads text.now (suc at) (bool (drop at text.now)) (found result) }
{
    let w = word_at(text, at);
    match w.kind {
        Kind::True => Some((true, w.end)),
        Kind::False => Some((false, w.end)),
        _ => None,
    }
}

// A bare symbol: its text or its number.
fn bare_symbol_at(text: &[u8], at: usize, buf: &mut [u8], pos: usize) -> Option<SymbolRead>
    requires { at ≤ length text.now }
    ensures { SymbolAt text.now (suc at) buf.old buf.new pos (bare_symbol (drop at text.now)) result }
{
    let n = name_end(text, at);
    if at < n {
        let q = output::put_bytes(buf, pos, &text[at..n]);
        return Some(SymbolRead::Text { at: n, pos: q });
    }
    let w = word_at(text, at);
    match w.kind {
        Kind::Text => {
            let p = output::put_bytes(buf, pos, &text[at..w.end]);
            Some(SymbolRead::Text { at: w.end, pos: p })
        }
        Kind::Number(n) => Some(SymbolRead::Id { n, at: w.end }),
        _ => None,
    }
}

// A symbol; `old`: by 01's raw rule. Its text, without marks and escapes, is written as it is read.
pub fn symbol_at(
    text: &[u8],
    at: usize,
    old: bool,
    buf: &mut [u8],
    pos: usize,
) -> Option<SymbolRead>
    requires { at ≤ length text.now }
    ensures { SymbolAt text.now (suc at) buf.old buf.new pos (symbol (raw_rule old) (drop at text.now)) result }
{
    if at == text.len() {
        return None;
    }
    if text[at] != b'\'' {
        return bare_symbol_at(text, at, buf, pos);
    }
    let s = characters_at(text, at + 1, b'\'', old, buf, pos)?;
    Some(SymbolRead::Text {
        at: s.at,
        pos: s.pos,
    })
}
