// Bare words: identifiers and the words that look like one.
ghost use Rattle.std.specs.Prelude.{◌≡◌, true, ◌-◌, ◌≤◌, ◌<◌, length, drop};
ghost use Rattle.output.specs.Logic.{byte};
ghost use Rattle.text_rules.specs.Digits.{number};
ghost use Rattle.text_rules.specs.Texts.{starts, same};
ghost use Rattle.text_rules.specs.Words.{is_start, is_part, all_digits, is_keyword, resembles_symbol_id, version, resembles_version_marker, is_identifier, symbol_id, kind_of};
ghost use Rattle.text_rules.specs.declared.words.Kind.TheVariants.{Text};
ghost use Rattle.text_rules.specs.WordSteps.{Spanned, Passed, WordStands, WordAt, bounded};

use crate::digits::is_digit;
use crate::texts::stands;

// What a word of identifier bytes is where it stands bare. `Refused` is a kind as the others: the readers above tell all eight by one `match`, and the
// definition `kind_of` and the theorems over it speak of them.
#[derive(Clone, Copy)]
pub enum Kind {
    Null,
    True,
    False,
    Nan,
    Marker,
    Number(u32),
    Text,
    Refused,
}

// A bare word: what it is, and the place behind it.
#[derive(Clone, Copy)]
pub struct Word {
    pub kind: Kind,
    pub end: usize,
}

// `$`, `_` or a letter.
#[tactic(auto, unfolding(crate::specs::Words::is_start))]
pub fn is_start(b: u8) -> bool
    ensures { result ≡ is_start b }
{
    matches!(b, b'$' | b'_' | b'A'..=b'Z' | b'a'..=b'z')
}

// These or digits. Small letters, which names mostly are, are told by two tests: with one `matches!` of all, reading and long names take a sixth
// more instructions.
#[tactic(auto, unfolding(crate::specs::Words::is_start, crate::specs::Words::is_part, crate::specs::Digits::is_digit))]
pub fn is_part(b: u8) -> bool
    ensures { result ≡ is_part b }
{
    if b'a' <= b {
        return b <= b'z';
    }
    if b < b'0' {
        return b == b'$';
    }
    if b < b'A' {
        return b <= b'9';
    }
    b <= b'Z' || b == b'_'
}

// The first place at or after `from` that holds no byte of an identifier.
pub fn word_end(text: &[u8], from: usize) -> usize
    requires { from ≤ length text.now }
    ensures { Spanned text.now from result }
{
    for i in from..text.len() {
        if !is_part(text[i]) {
            return i;
        }
    }
    text.len()
}

// The word stands at a place of the text.
pub fn word_stands(text: &[u8], at: usize, word: &[u8]) -> bool
    requires { at ≤ length text.now }
    ensures { WordStands text.now at word.now result }
{
    if text.len() - at < word.len() {
        return false;
    }
    for i in 0..word.len() {
        if text[at + i] != word[i] {
            return false;
        }
    }
    true
}

// The text is the word, whole.
pub fn same_word(text: &[u8], word: &[u8]) -> bool
    ensures { result ≡ same word.now text.now }
{
    text == word
}

// The first place at or after `from` that holds no digit.
fn digits_end(text: &[u8], from: usize) -> usize
    requires { from ≤ length text.now }
    ensures { Passed text.now from result }
{
    for i in from..text.len() {
        if !is_digit(text[i]) {
            return i;
        }
    }
    text.len()
}

// One digit at least from a place on, and nothing else.
pub fn all_digits(s: &[u8], from: usize) -> bool
    ensures { result ≡ all_digits (drop from s.now) }
{
    from < s.len() && digits_end(s, from) == s.len()
}

// true, false, nan or null. Names rarely start with these letters.
#[tactic(auto, unfolding(crate::specs::Words::is_keyword))]
pub fn token_is_keyword(w: &[u8]) -> bool
    ensures { result ≡ is_keyword w.now }
{
    same_word(w, b"true") || same_word(w, b"false") || same_word(w, b"nan") || same_word(w, b"null")
}

// `$` and digits.
#[tactic(auto, unfolding(crate::specs::Words::resembles_symbol_id))]
pub fn token_resembles_symbol_id(w: &[u8]) -> bool
    ensures { result ≡ resembles_symbol_id w.now }
{
    stands(w, 0, b'$') && all_digits(w, 1)
}

// Digits, `_` and digits from a place on.
fn is_version(w: &[u8], from: usize) -> bool
    requires { from ≤ length w.now }
    ensures { result ≡ version (drop from w.now) }
{
    if from == w.len() || !is_digit(w[from]) {
        return false;
    }
    let e = digits_end(w, from + 1);
    stands(w, e, b'_') && all_digits(w, e + 1)
}

// `$ion_` digits `_` digits.
#[tactic(auto, unfolding(crate::specs::Words::resembles_version_marker))]
pub fn token_resembles_version_marker(w: &[u8]) -> bool
    ensures { result ≡ resembles_version_marker w.now }
{
    word_stands(w, 0, b"$ion_") && is_version(w, 5)
}

// `$`, `_` or a letter, then these or digits.
pub fn token_is_identifier(w: &[u8]) -> bool
    ensures { result ≡ is_identifier w.now }
{
    !w.is_empty() && is_start(w[0]) && word_end(w, 1) == w.len()
}

// The number that the bytes from a place on are, if it is below 2 to the 32nd.
fn bounded_number(w: &[u8], from: usize) -> Kind
    requires { from ≤ length w.now }
    ensures { result ≡ bounded (number 0 (drop from w.now)) }
{
    let mut n: u64 = 0;
    for i in from..w.len() {
        n = n * 10 + u64::from(w[i].saturating_sub(b'0'));
        if 4294967295 < n {
            return Kind::Refused;
        }
    }
    Kind::Number(n as u32)
}

// The number behind `$`.
fn symbol_id(w: &[u8]) -> Kind
    requires { 1 < length w.now }
    ensures { result ≡ symbol_id (drop 1 w.now) }
{
    if w.len() != 2 && w[1] == b'0' {
        return Kind::Refused;
    }
    bounded_number(w, 1)
}

// What a word that starts with `$` is.
fn dollar_kind(w: &[u8], identifier: bool) -> Kind
    requires { (starts (byte "$") w.now ≡ true) × (identifier ≡ is_identifier w.now) }
    ensures { result ≡ kind_of w.now }
{
    if token_resembles_version_marker(w) {
        if same_word(w, b"$ion_1_0") {
            Kind::Marker
        } else {
            Kind::Refused
        }
    } else if all_digits(w, 1) {
        symbol_id(w)
    } else if identifier {
        Kind::Text
    } else {
        Kind::Refused
    }
}

// A keyword. Most words start with another byte, and are told without a call.
fn is_keyword(w: &[u8]) -> bool
    requires { 0 < length w.now }
    ensures { result ≡ is_keyword w.now }
{
    match w[0] {
        b't' | b'f' | b'n' => token_is_keyword(w),
        _ => false,
    }
}

// What a word is of which it is known whether it is an identifier.
fn known_kind(w: &[u8], identifier: bool) -> Kind
    requires { (0 < length w.now) × (identifier ≡ is_identifier w.now) }
    ensures { result ≡ kind_of w.now }
{
    if w[0] == b'$' {
        dollar_kind(w, identifier)
    } else if is_keyword(w) {
        keyword_kind(w)
    } else if identifier {
        Kind::Text
    } else {
        Kind::Refused
    }
}

// Which keyword a word is.
fn keyword_kind(w: &[u8]) -> Kind
    requires { is_keyword w.now ≡ true }
    ensures { result ≡ kind_of w.now }
{
    if same_word(w, b"null") {
        Kind::Null
    } else if same_word(w, b"true") {
        Kind::True
    } else if same_word(w, b"false") {
        Kind::False
    } else {
        Kind::Nan
    }
}

// The word of identifier bytes at a place. Its bytes are all of an identifier's, so the first one tells whether it is one.
pub fn word_at(text: &[u8], at: usize) -> Word
    requires { at ≤ length text.now }
    ensures { WordAt text.now at result }
{
    let end = word_end(text, at);
    let kind = if end == at {
        Kind::Refused
    } else {
        known_kind(&text[at..end], is_start(text[at]))
    };
    Word { kind, end }
}

// The place behind a word that is a symbol's text, where it starts with a letter or `_`; else the place itself, which says nothing.
pub fn name_end(text: &[u8], at: usize) -> usize
    requires { at ≤ length text.now }
    ensures { at < result → WordAt text.now at (record { kind = Text; end = result }) }
{
    if at == text.len() || text[at] < b'A' {
        return at;
    }
    let end = word_end(text, at);
    if end == at || is_keyword(&text[at..end]) {
        return at;
    }
    end
}
