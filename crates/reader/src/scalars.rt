// Values that are no containers, told by their first byte.
ghost use Rattle.std.specs.Prelude.{◌≡◌, ℕ, suc, ◌≤◌, ◌<◌, List, length, drop, get_or};
ghost use Rattle.output.specs.Wrote.{limit};
ghost use Rattle.tokens.specs.Quoted.{raw_rule, string, clob};
ghost use Rattle.tokens.specs.Blob.{blob};
ghost use Rattle.tokens.specs.Token.{null_behind};
ghost use Rattle.text_rules.specs.Reading.{Reads};
ghost use Rattle.numbers.specs.Numeral.{ReadNumeral, numeral};
ghost use Rattle.numbers.specs.NumeralSteps.{numeral_read};
ghost use Rattle.tape.specs.Tree.{encode};
ghost use Rattle.reader.specs.Grammar.{taken, words, numeral_node, numbers, numeric, braces, scalar};
ghost use Rattle.reader.specs.Steps.{Read, string_node, clob_node, blob_node, null_node, untimed_number};

use crate::{heads, nodes};
use numbers::numeral::Numeral;
use text_rules::texts::stands;
use text_rules::words::Kind;
use tokens::quoted::Step;

// A string; `old`: by 01's raw rule. Its text is written first, its length before it then.
fn string_at(text: &[u8], at: usize, old: bool, buf: &mut [u8], pos: usize) -> Option<Step>
    requires { (at < length text.now) × (pos ≤ limit) × (get_or text.now at 0 ≡ 34) }
    ensures { Read encode text.now (suc at) buf.old buf.new pos (taken string_node (string (raw_rule old) (drop at text.now))) result }
{
    let s = output::ahead(pos, 5);
    let body = tokens::quoted::characters_at(text, at + 1, b'"', old, buf, s)?;
    nodes::put_header(buf, pos, 8, body.pos - s);
    Some(body)
}

// A clob, in the same way.
fn clob_at(text: &[u8], at: usize, buf: &mut [u8], pos: usize) -> Option<Step>
    requires { (at ≤ length text.now) × (pos ≤ limit) }
    ensures { Read encode text.now (suc at) buf.old buf.new pos (taken clob_node (clob (drop at text.now))) result }
{
    let s = output::ahead(pos, 5);
    let body = tokens::quoted::clob_at(text, at, buf, s)?;
    nodes::put_header(buf, pos, 9, body.pos - s);
    Some(body)
}

// A blob, in the same way. Not one with `clob_at`: a function of both would take the kind, the reader and the definition besides.
fn blob_at(text: &[u8], at: usize, buf: &mut [u8], pos: usize) -> Option<Step>
    requires { (at ≤ length text.now) × (pos ≤ limit) }
    ensures { Read encode text.now (suc at) buf.old buf.new pos (taken blob_node (blob (drop at text.now))) result }
{
    let s = output::ahead(pos, 5);
    let body = tokens::blobs::blob_at(text, at, buf, s)?;
    nodes::put_header(buf, pos, 15, body.pos - s);
    Some(body)
}

// `{{` and a quote mark is a clob, any other `{{` a blob.
fn braces_at(text: &[u8], at: usize, buf: &mut [u8], pos: usize) -> Option<Step>
    requires { (at ≤ length text.now) × (pos ≤ limit) }
    ensures { Read encode text.now (suc at) buf.old buf.new pos (braces (drop at text.now)) result }
{
    if 2 < text.len() - at && text[at + 2] == b'"' {
        return clob_at(text, at, buf, pos);
    }
    blob_at(text, at, buf, pos)
}

// The type behind `null`, and a null of it.
fn null_at(text: &[u8], at: usize, buf: &mut [u8], pos: usize) -> Option<Step>
    requires { at ≤ length text.now }
    ensures { Read encode text.now at buf.old buf.new pos (taken null_node (null_behind (drop at text.now))) result }
{
    let (t, e) = tokens::values::null_behind(text, at)?;
    let p = nodes::put2(buf, pos, 0, t);
    Some(Step { at: e, pos: p })
}

// A bare word; `m`: a marker may stand here.
fn word_at(text: &[u8], at: usize, m: bool, buf: &mut [u8], pos: usize) -> Option<Step>
    requires { (at ≤ length text.now) × (pos ≤ limit) }
    ensures { Read encode text.now (suc at) buf.old buf.new pos (words m (drop at text.now)) result }
{
    let w = text_rules::words::word_at(text, at);
    let e = w.end;
    match w.kind {
        Kind::Null => null_at(text, e, buf, pos),
        Kind::True => {
            let p = nodes::put2(buf, pos, 1, 1);
            Some(Step { at: e, pos: p })
        }
        Kind::False => {
            let p = nodes::put2(buf, pos, 1, 0);
            Some(Step { at: e, pos: p })
        }
        Kind::Nan => {
            let p = nodes::put_wide(buf, pos, 3, 0x7FF8_0000_0000_0000);
            Some(Step { at: e, pos: p })
        }
        Kind::Marker => {
            if !m {
                return None;
            }
            let p = output::put(buf, pos, 14);
            Some(Step { at: e, pos: p })
        }
        Kind::Number(n) => {
            let p = nodes::put_header(buf, pos, 7, n as usize);
            Some(Step { at: e, pos: p })
        }
        Kind::Text => {
            let p = nodes::put_text(buf, pos, &text[at..e]);
            Some(Step { at: e, pos: p })
        }
        Kind::Refused => None,
    }
}

// The node of an int or a decimal that was read.
fn put_numeral(n: Option<(Numeral, usize)>, buf: &mut [u8], pos: usize) -> Option<Step>
    requires { pos ≤ limit }
    ensures { (text : List ℕ) (lo : ℕ) (o : ReadNumeral) → Reads text lo o (numeral_read n) → Read encode text lo buf.old buf.new pos (taken numeral_node o) result }
{
    match n {
        Some((Numeral::Int(z), e)) => {
            let p = nodes::put_int(buf, pos, z);
            Some(Step { at: e, pos: p })
        }
        Some((Numeral::Decimal(neg, m, x), e)) => {
            let p = nodes::put_decimal(buf, pos, neg, m, x);
            Some(Step { at: e, pos: p })
        }
        None => None,
    }
}

// A float as printed, or else the int or decimal n, which was read at the same place.
fn float_or(
    text: &[u8],
    at: usize,
    n: Option<(Numeral, usize)>,
    buf: &mut [u8],
    pos: usize,
) -> Option<Step>
    requires { (at ≤ length text.now) × (pos ≤ limit) × Reads text.now (suc at) (numeral (drop at text.now)) (numeral_read n) }
    ensures { Read encode text.now (suc at) buf.old buf.new pos (untimed_number (drop at text.now)) result }
{
    let Some((x, e)) = floats::float::float_at(text, at) else {
        return put_numeral(n, buf, pos);
    };
    let p = nodes::put_float(buf, pos, x);
    Some(Step { at: e, pos: p })
}

// A float as printed, an int or a decimal. An int or a decimal without `e` behind it is no float's beginning.
fn untimed_at(text: &[u8], at: usize, buf: &mut [u8], pos: usize) -> Option<Step>
    requires { (at ≤ length text.now) × (pos ≤ limit) }
    ensures { Read encode text.now (suc at) buf.old buf.new pos (untimed_number (drop at text.now)) result }
{
    let n = numbers::numeral::numeral_at(text, at);
    match n {
        Some((Numeral::Int(z), e)) => {
            if !stands(text, e, b'e') {
                let p = nodes::put_int(buf, pos, z);
                return Some(Step { at: e, pos: p });
            }
        }
        Some((Numeral::Decimal(neg, m, x), e)) => {
            if !stands(text, e, b'e') {
                let p = nodes::put_decimal(buf, pos, neg, m, x);
                return Some(Step { at: e, pos: p });
            }
        }
        None => {}
    }
    // taken apart and made anew: the answer copied whole would wait for its own stores
    let s = float_or(text, at, n, buf, pos)?;
    Some(Step {
        at: s.at,
        pos: s.pos,
    })
}

// A float as printed, a timestamp, an int or a decimal. A timestamp is no float, so that it is tried first.
fn number_at(text: &[u8], at: usize, buf: &mut [u8], pos: usize) -> Option<Step>
    requires { (at < length text.now) × (pos ≤ limit) }
    ensures { Read encode text.now (suc at) buf.old buf.new pos (numbers (drop at text.now)) result }
{
    let Some((x, e)) = numbers::timestamp::timestamp_at(text, at) else {
        return untimed_at(text, at, buf, pos);
    };
    let p = nodes::put_timestamp(buf, pos, x);
    Some(Step { at: e, pos: p })
}

// A digit or a sign.
#[tactic(auto, using(std::proofs::lemmas::Bool::Decides::nat_tests), unfolding(crate::specs::Grammar::numeric, text_rules::specs::Digits::is_digit))]
fn is_numeric(b: u8) -> bool
    ensures { result ≡ numeric b }
{
    matches!(b, b'0'..=b'9' | b'-' | b'+')
}

// A value that is no container; `old`: by 01's raw rule; `m`: a marker may stand here.
pub fn scalar_at(
    text: &[u8],
    at: usize,
    old: bool,
    m: bool,
    buf: &mut [u8],
    pos: usize,
) -> Option<Step>
    requires { (at ≤ length text.now) × (pos ≤ limit) }
    ensures { Read encode text.now (suc at) buf.old buf.new pos (scalar (raw_rule old) m (drop at text.now)) result }
{
    if at == text.len() {
        return None;
    }
    let b = text[at];
    if b == b'"' {
        return string_at(text, at, old, buf, pos);
    }
    if b == b'\'' {
        return heads::symbol_at(text, at, old, buf, pos);
    }
    if b == b'{' {
        return braces_at(text, at, buf, pos);
    }
    if is_numeric(b) {
        return number_at(text, at, buf, pos);
    }
    word_at(text, at, m, buf, pos)
}
