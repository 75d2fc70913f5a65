// Blobs, read: the bytes that base64 means are written as they are read.
ghost use Rattle.std.specs.Prelude.{◌≡◌, suc, ◌<◌, ◌≤◌, length, take, drop, IfSome};
ghost use Rattle.std.proofs.Math.Option.{none};
ghost use Rattle.output.specs.Wrote.{Wrote, limit, le_bytes};
ghost use Rattle.text_rules.specs.Base64.{bits_of, bytes24};
ghost use Rattle.tokens.specs.Blob.{blob_rest, blob};
ghost use Rattle.tokens.specs.BlobSteps.{group_at, Decoded, FirstBytes};
ghost use Rattle.tokens.specs.Steps.{Copies};
ghost use Rattle.text_rules.specs.Reading.{found};

use crate::quoted::Step;
use text_rules::words::word_stands;

// The 24 bits of four characters of base64. Four `A` fill the word.
fn bits_of(a: u8, b: u8, c: u8, d: u8) -> Option<u64>
    ensures bits { found result ≡ bits_of a b c d }
    ensures below { IfSome result (λ n. n < 16777216) }
{
    let x = u32::from_le_bytes([a, b, c, d]) as u64 + 0x4141414100000000;
    if !lanes::sextets::is_base64(x) {
        return None;
    }
    let v = lanes::sextets::values(x);
    Some(v % 256 * 262144 + v / 256 % 256 * 4096 + v / 65536 % 256 * 64 + v / 16777216 % 256)
}

// The first bytes of 24 bits, as many as the width says.
fn put_bytes24(buf: &mut [u8], pos: usize, n: u64, width: usize) -> usize
    requires { (n < 16777216) × (width ≤ 3) }
    ensures { Wrote buf.old buf.new pos result (take width (bytes24 n)) }
{
    output::put_le(
        buf,
        pos,
        n / 65536 + 256 * (n / 256 % 256) + 65536 * (n % 256),
        width,
    )
}

// The six lowest bytes of a word: two stores where there is room.
fn put_six(buf: &mut [u8], pos: usize, w: u64) -> usize
    ensures { Wrote buf.old buf.new pos result (le_bytes 6 w) }
{
    if pos < buf.len().saturating_sub(5) {
        output::store::<4>(buf, pos, w);
        output::store::<2>(buf, pos + 4, w / 4294967296);
        return pos + 6;
    }
    output::put_le(buf, pos, w, 6)
}

// Whole groups at a place, two at once.
fn words_at(text: &[u8], at: usize, buf: &mut [u8], pos: usize) -> Step
    requires { at ≤ length text.now }
    ensures { Decoded text.now at buf.old buf.new pos result }
{
    let mut i = at;
    let mut p = output::bounded(pos);
    // A walk: the step is two groups, and it stops at the first that is none.
    while i + 7 < text.len() {
        let x = output::word_at(text, i);
        if !lanes::sextets::is_base64(x) {
            return Step { at: i, pos: p };
        }
        p = put_six(buf, p, lanes::sextets::gather(lanes::sextets::values(x)));
        i += 8;
    }
    Step { at: i, pos: p }
}

// The whole groups at a place, all of them.
fn groups_at(text: &[u8], at: usize, buf: &mut [u8], pos: usize) -> Step
    requires { at ≤ length text.now }
    ensures read { Decoded text.now at buf.old buf.new pos result }
    ensures all { group_at (drop result.at text.now) ≡ none }
{
    let mut i = at;
    let mut p = output::bounded(pos);
    // A walk: the step is a group.
    while i + 3 < text.len() {
        let Some(n) = bits_of(text[i], text[i + 1], text[i + 2], text[i + 3]) else {
            return Step { at: i, pos: p };
        };
        p = put_bytes24(buf, p, n, 3);
        i += 4;
    }
    Step { at: i, pos: p }
}

// The first bytes of the 24 bits n, one or two, if the bits behind them are zero; the text goes on at a place.
fn first_bytes(buf: &mut [u8], pos: usize, n: u64, width: usize, at: usize) -> Option<Step>
    requires { (n < 16777216) × (1 ≤ width) × (width ≤ 2) }
    ensures { FirstBytes buf.old buf.new pos n width at result }
{
    if width == 1 && n % 65536 != 0 {
        return None;
    }
    if n % 256 != 0 {
        return None;
    }
    let p = put_bytes24(buf, pos, n, width);
    Some(Step { at, pos: p })
}

// What ends base64 at a place where no whole group stands: a group with `=` or none, and `}}`.
fn last_at(text: &[u8], at: usize, buf: &mut [u8], pos: usize) -> Option<Step>
    requires at_in_bounds { at ≤ length text.now }
    requires text_value { group_at (drop at text.now) ≡ none }
    ensures { Copies text.now (suc at) buf.old buf.new pos (blob_rest (drop at text.now)) result }
{
    if word_stands(text, at, b"}}") {
        return Some(Step {
            at: at + 2,
            pos: output::bounded(pos),
        });
    }
    if text.len() - at < 4 || text[at + 3] != b'=' || !word_stands(text, at + 4, b"}}") {
        return None;
    }
    if text[at + 2] == b'=' {
        let n = bits_of(text[at], text[at + 1], b'A', b'A')?;
        return first_bytes(buf, pos, n, 1, at + 6);
    }
    let n = bits_of(text[at], text[at + 1], text[at + 2], b'A')?;
    first_bytes(buf, pos, n, 2, at + 6)
}

// A blob: `{{`, base64, `}}`.
pub fn blob_at(text: &[u8], at: usize, buf: &mut [u8], pos: usize) -> Option<Step>
    requires { at ≤ length text.now }
    ensures { Copies text.now (suc at) buf.old buf.new pos (blob (drop at text.now)) result }
{
    if !word_stands(text, at, b"{{") {
        return None;
    }
    let w = words_at(text, at + 2, buf, pos);
    let g = groups_at(text, w.at, buf, w.pos);
    last_at(text, g.at, buf, g.pos)
}
