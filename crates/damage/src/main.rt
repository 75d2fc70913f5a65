// Damages the Lines texts of tapes in many ways and reads each damaged text twice, from its start through the end mark: call by call, and by a
// list of n calls over one session for each n. Prints, for each tape, in how many layouts it does not read back as itself, in how many its text is not
// written in exactly the bytes that were measured before, or not cut by 6 in one byte less, its text, and a line for
// each kind of damage: how many texts it makes, a digest of every answer, offset and whole buffer, and on how many texts the lists differ from it.
// Before that come document 01's two examples, on the first tape, answer by answer. A tape stands in a frame: u32 length, and its bytes. The
// tapes and what they must give come from tests/damage.py.
#![tactic(auto)]

ghost use Rattle.std.specs.Prelude.{◌≤◌};

use line_reader::Called;
use std::ops::Range;
use std::{io, mem};
use tape::answer::Answer;

const PRIME: u64 = 4294967291;

// The longest text that is damaged, before and after.
const LONGEST: usize = 256;

// A digest with a number more.
fn feed(d: u64, x: u64) -> u64 {
    ((d % PRIME) * 257 + x % PRIME + 1) % PRIME
}

// The count, which is 0 for the end mark, or minus the refusal, modulo the prime.
fn signed(a: Answer) -> u64 {
    match a {
        Answer::Count(n) => n as u64,
        Answer::End => 0,
        refused => PRIME - u64::from(tape::answer::number(refused)),
    }
}

// A digest with what a call left: answer, offset and whole buffer.
fn feed_call(d: u64, c: Called, out: &[u8]) -> u64 {
    let called = feed(feed(d, signed(c.answer)), c.at as u64);
    out.iter().fold(called, |d, b| feed(d, u64::from(*b)))
}

// A call more, at an offset past the text: it is refused by 10, and leaves all as it was.
fn feed_past(d: u64, text: &[u8], out: &mut [u8]) -> u64 {
    let past = line_reader::call_at(text, 1000, out);
    feed_call(d, past, out)
}

// Two calls more: the end mark comes again, and then a call past the text.
fn feed_after(d: u64, text: &[u8], out: &mut [u8]) -> u64 {
    let again = line_reader::call_at(text, text.len(), out);
    feed_past(feed_call(d, again, out), text, out)
}

// The tape in hex, the refusal or `end`, on a line.
fn say(rt: &impl Print, a: Answer, out: &[u8]) -> io::Result<()> {
    let mut line = [0u8; 1024];
    let p = program_io::put_answer(&mut line, 0, a, out);
    let end = output::put(&mut line, p, b'\n');
    program_io::print(rt, &line, end)?;
    Ok(())
}

// A digest with the calls on a text through the end mark, each from what the last one left, in a buffer of 256 bytes that is `#` all over
// at first. Each answer and what it left are told.
fn feed_calls<T: Fn(Answer, &[u8]) -> io::Result<()>>(
    start: u64,
    text: &[u8],
    tell: T,
) -> io::Result<u64>
    requires { T.IsAlwaysCallable tell }
{
    let mut out = [b'#'; LONGEST];
    let mut d = start;
    let mut at = 0;
    for _ in 0..=text.len() {
        let c = line_reader::call_at(text, at, &mut out);
        at = c.at;
        d = feed_call(d, c, &out);
        tell(c.answer, &out)?;
        if matches!(c.answer, Answer::End) {
            return Ok(feed_after(d, text, &mut out));
        }
    }
    Ok(d)
}

// Two calls more, the first as the last of a list of n.
fn feed_list_after(d: u64, text: &[u8], n: usize) -> u64 {
    let mut out = [b'#'; LONGEST];
    let again = line_reader::nth_call(text, n, &mut out);
    feed_past(feed_call(d, again, &out), text, &mut out)
}

// What `feed_calls` makes, with each call as the last of a list: n calls of `read_lines` over one session, for n = 1, 2, … through the end mark,
// each list from a buffer that is `#` all over.
fn feed_lists(start: u64, text: &[u8]) -> u64 {
    let mut d = start;
    for n in 1..=32 {
        let mut out = [b'#'; LONGEST];
        let c = line_reader::nth_call(text, n, &mut out);
        d = feed_call(d, c, &out);
        if matches!(c.answer, Answer::End) {
            return feed_list_after(d, text, n + 1);
        }
    }
    d
}

// The text with the bytes in place of those of a range, put into the buffer; nothing where the range is not in the text. None where that is longer
// than the buffer.
fn replaced<'a>(
    text: &[u8],
    range: Range<usize>,
    new: &[u8],
    made: &'a mut [u8],
) -> Option<&'a [u8]> {
    let mut n = 0;
    if let (Some(before), Some(behind)) = (text.get(..range.start), text.get(range.end..)) {
        n = output::put_bytes(made, n, before);
        n = output::put_bytes(made, n, new);
        n = output::put_bytes(made, n, behind);
    }
    made.get(..n)
}

// A digest, and on how many texts the one by lists of calls differed.
#[derive(Clone, Copy, Default)]
struct Fed {
    digest: u64,
    differ: u64,
}

impl Fed {
    // With a text more, which is a text with other bytes in place of a range. One that got too long counts as one on which they differ.
    fn with(self, text: &[u8], range: Range<usize>, new: &[u8]) -> io::Result<Fed> {
        let Fed { digest, differ } = self;
        let mut made = [0u8; LONGEST];
        let Some(damaged) = replaced(text, range, new, &mut made) else {
            return Ok(Fed {
                digest,
                differ: differ.saturating_add(1),
            });
        };
        let by_lists = feed_lists(digest, damaged);
        let digest = feed_calls(digest, damaged, |_, _| Ok(()))?;
        let differ = differ.saturating_add(u64::from(digest != by_lists));
        Ok(Fed { digest, differ })
    }
}

// How many texts, their digest, and on how many of them the lists of calls differ.
fn say_digest(rt: &impl Print, texts: usize, fed: Fed) -> io::Result<()> {
    let Fed { digest, differ } = fed;
    println!(rt; ": {texts} texts, {digest}, lists differ on {differ}")
}

// Each run of so many bytes replaced by the same bytes.
fn replace_each(rt: &impl Print, text: &[u8], width: usize, new: &[u8]) -> io::Result<()> {
    let places = text
        .len()
        .checked_sub(width)
        .map_or(0, |last| last.saturating_add(1));
    let mut fed = Fed::default();
    for i in 0..places {
        fed = fed.with(text, i..i.saturating_add(width), new)?;
    }
    say_digest(rt, places, fed)
}

// Each byte replaced by the byte with the next number.
fn raise(rt: &impl Print, text: &[u8]) -> io::Result<()> {
    let mut fed = Fed::default();
    for (i, b) in text.iter().enumerate() {
        fed = fed.with(text, i..i + 1, &[b.wrapping_add(1)])?;
    }
    print!(rt; "raised")?;
    say_digest(rt, text.len(), fed)
}

fn change_each(rt: &impl Print, text: &[u8]) -> io::Result<()> {
    for b in [b'\n', b'x', b'"', b'[', b'\'', 0, 255] {
        print!(rt; "changed to {b}")?;
        replace_each(rt, text, 1, &[b])?;
    }
    raise(rt, text)
}

fn cut_each(rt: &impl Print, text: &[u8]) -> io::Result<()> {
    for n in 1..9 {
        print!(rt; "cut {n}")?;
        replace_each(rt, text, n, b"")?;
    }
    Ok(())
}

fn insert_each(rt: &impl Print, text: &[u8]) -> io::Result<()> {
    for b in [b'\n', b'"', b'\'', b'[', b']', b'{', b'(', b'\\', b','] {
        print!(rt; "inserted {b}")?;
        replace_each(rt, text, 0, &[b])?;
    }
    Ok(())
}

// A text with `x` for the bytes of a range, and what each call on it answers.
fn show_damaged(rt: &impl Print, text: &[u8], range: Range<usize>) -> io::Result<()> {
    let mut made = [0u8; LONGEST];
    if let Some(damaged) = replaced(text, range, b"x", &mut made) {
        rt.write_all(damaged)?;
        feed_calls(0, damaged, |a, out| say(rt, a, out))?;
    }
    Ok(())
}

// Whether the tape's text in a layout, under a setting, does not read back as the tape, in a buffer that keeps its rest.
fn differs_back(quoted: bool, layout: u32, tape: &[u8]) -> bool {
    let mut text = [0u8; 512];
    let mut out = [b'#'; 512];
    let a = claims::write_and_read(quoted, layout, tape, &mut text, &mut out);
    let Answer::Count(n) = a else {
        return true;
    };
    let Some(rest) = out.strip_prefix(tape) else {
        return true;
    };
    n != tape.len() || rest.iter().any(|b| *b != b'#')
}

// In how many of the three layouts it differs under a setting.
fn layouts_back(quoted: bool, tape: &[u8]) -> usize
    ensures { result ≤ 3 }
{
    (0..3u32)
        .filter(|layout| differs_back(quoted, *layout, tape))
        .count()
}

// Under both settings.
fn say_back(rt: &impl Print, tape: &[u8]) -> io::Result<()> {
    let both = layouts_back(false, tape) + layouts_back(true, tape);
    println!(rt; "written and read back, differs in layouts: {both}")
}

// Whether the buffer is the text with what stands behind it, but `#` at a place.
fn is_but(out: &[u8], text: &[u8], place: usize) -> bool {
    out.len() == text.len()
        && out
            .iter()
            .zip(text)
            .enumerate()
            .all(|(i, (b, due))| *b == if i == place { b'#' } else { *due })
}

// Whether the answer b and its buffer, of exactly the bytes that were measured, are not the answer a and its buffer, which is long enough; or c, with
// one byte less, is not 6 with a byte less of the text, or the same refusal as a.
fn differs_by(a: Answer, text: &[u8], b: Answer, exact: &[u8], c: Answer, short: &[u8]) -> bool {
    if signed(b) != signed(a) || exact != text {
        return true;
    }
    match a {
        Answer::Count(0) => true,
        Answer::Count(n) => !matches!(c, Answer::TextTooLong) || !is_but(short, text, n - 1),
        _ => signed(c) != signed(a) || short != text,
    }
}

// The same of a way to write, and one to measure and write, into a buffer with a byte less where it is told so.
fn differs_measured<W: Fn(&mut [u8]) -> Answer, M: Fn(bool, &mut [u8]) -> Answer>(
    write: W,
    measure_and_write: M,
) -> bool
    requires write { W.IsAlwaysCallable write }
    requires measure { M.IsAlwaysCallable measure_and_write }
{
    let mut text = [b'#'; 512];
    let mut exact = [b'#'; 512];
    let mut short = [b'#'; 512];
    let a = write(&mut text);
    let b = measure_and_write(false, &mut exact);
    let c = measure_and_write(true, &mut short);
    differs_by(a, &text, b, &exact, c, &short)
}

// In a layout.
fn differs_streamed(quoted: bool, layout: u32, tape: &[u8]) -> bool {
    differs_measured(
        |out| writer::writer::write_stream_with(quoted, layout, tape, out),
        |less, out| claims::measure_and_write(quoted, layout, tape, less, out),
    )
}

// In the tree text of the first line's value.
fn differs_first(quoted: bool, text: &[u8]) -> bool {
    let mut tape = [0u8; 512];
    let Answer::Count(n) = line_reader::call_at(text, 0, &mut tape).answer else {
        return true;
    };
    let Some(tape) = tape.get(..n) else {
        return true;
    };
    differs_measured(
        |out| tree::write_tree_with(quoted, tape, out),
        |less, out| claims::measure_and_write_tree(quoted, tape, less, out),
    )
}

// In how many of the four texts it differs under a setting.
fn texts_measured(quoted: bool, tape: &[u8], text: &[u8]) -> usize
    ensures { result ≤ 4 }
{
    let streamed = (0..3u32)
        .filter(|layout| differs_streamed(quoted, *layout, tape))
        .count();
    streamed + usize::from(differs_first(quoted, text))
}

// Under both settings.
fn say_measured(rt: &impl Print, tape: &[u8], text: &[u8]) -> io::Result<()> {
    let both = texts_measured(false, tape, text) + texts_measured(true, tape, text);
    println!(rt; "measured and written, differs in texts: {both}")
}

fn damage(rt: &impl Print, tape: &[u8], text: &[u8], first: bool) -> io::Result<()> {
    if first {
        show_damaged(rt, text, 2..4)?;
        show_damaged(rt, text, 2..3)?;
    }
    say_back(rt, tape)?;
    say_measured(rt, tape, text)?;
    rt.write_all(text)?;
    change_each(rt, text)?;
    cut_each(rt, text)?;
    insert_each(rt, text)
}

// Whether a frame is one whose text can be damaged.
fn damage_frame(rt: &impl Print, frame: &[u8], first: bool) -> io::Result<bool> {
    let mut out = [0u8; LONGEST];
    let Some(tape) = frame.get(4..) else {
        return Ok(false);
    };
    let Answer::Count(n) = writer::writer::write_stream(1, tape, &mut out) else {
        return Ok(false);
    };
    let Some(text) = out.get(..n) else {
        return Ok(false);
    };
    damage(rt, tape, text, first)?;
    Ok(true)
}

fn main(rt: HostRuntime) -> io::Result<()> {
    let mut input = [0u8; 65536];
    let n = program_io::read_full(&mut rt.stdin(), &mut input)?;
    let mut first = true;
    let whole = program_io::all_frames(&input[..n], 4, |frame| {
        let was_first = mem::replace(&mut first, false);
        damage_frame(&rt, frame, was_first)
    })?;
    if !whole {
        println!(rt; "malformed input")?;
    }
    Ok(())
}
