// Replays a list of tapes and texts (crates/vectors/README.md has its format): each text is written into ample, exact and short buffers, read
// back and, in layout 1, read line by line; every answer and whole buffer is compared with the list. Prints a line for each difference, and
// then how much was compared.
#![tactic(auto)]

mod reading;
mod writing;

ghost use Rattle.std.specs.Prelude.{◌≡◌, ◌==◌, IfOk};
ghost use Rattle.listing.specs.Seen.{differences, Keeps};

pub use listing::report::Seen;
use listing::{decode, report};
use std::io;
use std::io::{Input, Read};

// What a buffer has all over before a call.
const FILL: u8 = 165;

// `x`: the tape that the lines behind it are about.
fn tape_line(rt: &impl Print, hex: &[u8], tape: &mut [u8], seen: &mut Seen) -> io::Result<()>
    ensures { Keeps seen.old seen.new }
{
    let Some(n) = decode::hex(hex, tape) else {
        return report::malformed(rt, seen);
    };
    report::count(&mut seen.tapes);
    seen.length = n;
    Ok(())
}

// Behind `=`: the text of a layout, the tree text, or with `r` any text that means the tape.
fn text(rt: &impl Print, mode: u8, text: &[u8], tape: &[u8], seen: &mut Seen) -> io::Result<()>
    ensures { Keeps seen.old seen.new }
{
    report::count(&mut seen.texts);
    if mode == b'r' {
        return reading::text(rt, text, tape, seen);
    }
    writing::text(rt, mode, text, tape, seen)?;
    reading::text(rt, text, tape, seen)?;
    if mode == b'1' {
        reading::lines(rt, text, tape, seen)?;
    }
    Ok(())
}

// Behind `!`: the number of a refusal; with `r` the text refused, and behind 6 the first bytes, which fill the buffer.
fn refusal(
    rt: &impl Print,
    mode: u8,
    number: u8,
    bytes: &[u8],
    tape: &[u8],
    seen: &mut Seen,
) -> io::Result<()>
    ensures { Keeps seen.old seen.new }
{
    report::count(&mut seen.refusals);
    if mode == b'r' {
        return reading::refusal(rt, number, bytes, seen);
    }
    writing::refusal(rt, mode, number, bytes, tape, seen)
}

// What is said behind `=`, or behind `!` and the number of a refusal.
fn said(
    rt: &impl Print,
    mode: u8,
    refused: Option<u8>,
    said: &[u8],
    tape: &[u8],
    seen: &mut Seen,
) -> io::Result<()>
    ensures { Keeps seen.old seen.new }
{
    let mut made = [0u8; 16384];
    let Some(bytes) = decode::text(said, &mut made).and_then(|n| made.get(..n)) else {
        return report::malformed(rt, seen);
    };
    match refused {
        None => text(rt, mode, bytes, tape, seen),
        Some(number) => refusal(rt, mode, number, bytes, tape, seen),
    }
}

// A mode, and what it gives.
fn answer_line(rt: &impl Print, line: &[u8], tape: &[u8], seen: &mut Seen) -> io::Result<()>
    ensures { Keeps seen.old seen.new }
{
    match line {
        [mode, b'=', spelled @ ..] => said(rt, *mode, None, spelled, tape, seen),
        [mode, b'!', digit @ b'1'..=b'9', spelled @ ..] => {
            said(rt, *mode, Some(*digit - b'0'), spelled, tape, seen)
        }
        _ => report::malformed(rt, seen),
    }
}

fn line(rt: &impl Print, line: &[u8], tape: &mut [u8], seen: &mut Seen) -> io::Result<()>
    ensures { Keeps seen.old seen.new }
{
    report::count(&mut seen.line);
    match line {
        [] | [b'#', ..] => Ok(()),
        [b'x', hex @ ..] => tape_line(rt, hex, tape, seen),
        _ => match tape.get(..seen.length) {
            Some(tape) => answer_line(rt, line, tape, seen),
            None => report::malformed(rt, seen),
        },
    }
}

// Every line of a text of whole lines. A `for` over the parts of `split_inclusive` does not prove here: its invariant, in a function over any `Print`,
// is not admitted.
fn lines(rt: &impl Print, text: &[u8], tape: &mut [u8], seen: &mut Seen) -> io::Result<()>
    ensures { Keeps seen.old seen.new }
{
    let mut rest = text;
    while let Some(n) = rest.iter().position(|b| *b == b'\n') {
        line(rt, &rest[..n], tape, seen)?;
        rest = &rest[n + 1..];
    }
    Ok(())
}

// One piece of the input, behind the bytes that the last one left. The input must end behind a whole line. How many bytes of a line are left that goes
// on in the next piece; none where the input has ended.
fn piece(
    rt: &impl Print,
    input: &mut impl Read,
    buf: &mut [u8],
    left: usize,
    tape: &mut [u8],
    seen: &mut Seen,
) -> io::Result<Option<usize>>
    ensures { Keeps seen.old seen.new }
{
    if buf.len() < left {
        report::malformed(rt, seen)?;
        return Ok(None);
    }
    let got = program_io::read_full(input, &mut buf[left..])?;
    if got == 0 {
        if left != 0 {
            report::malformed(rt, seen)?;
        }
        return Ok(None);
    }
    let end = left + got;
    let used = buf[..end]
        .iter()
        .rposition(|b| *b == b'\n')
        .map_or(0, |last| last + 1);
    lines(rt, &buf[..used], tape, seen)?;
    buf.copy_within(used..end, 0);
    Ok(Some(end - used))
}

// A proved loop has to end, and nothing says that the input does: the turns are counted up to a number that no list uses up.
fn pieces(
    rt: &impl Print,
    input: &mut impl Read,
    buf: &mut [u8],
    tape: &mut [u8],
    seen: &mut Seen,
) -> io::Result<()>
    ensures { Keeps seen.old seen.new }
{
    let mut left: usize = 0;
    for _ in 0..1000000u32 {
        let Some(n) = piece(rt, input, buf, left, tape, seen)? else {
            return Ok(());
        };
        left = n;
    }
    report::malformed(rt, seen)
}

// The list on standard input. Whether nothing differed; how much was compared is printed.
pub fn list(rt: &(impl Input + Print), seen: &mut Seen) -> io::Result<bool>
    ensures value { IfOk result (λ same. same ≡ (differences seen.new == 0)) }
    ensures keeps { Keeps seen.old seen.new }
{
    let mut buf = [0u8; 65536];
    let mut tape = [0u8; 16384];
    pieces(rt, &mut rt.reader(), &mut buf, &mut tape, seen)?;
    report::sum(rt, seen)
}
