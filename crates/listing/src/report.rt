// What was seen so far, counted, and what is printed.
ghost use Rattle.std.specs.Prelude.{◌≡◌, ◌≤◌, ◌==◌, IfOk};
ghost use Rattle.listing.specs.Seen.{one_more, differences, Keeps, Differs};

use crate::compare::Due;
use std::io;
use tape::answer::Answer;

// The line of the list, the length of its current tape, and how many were met.
#[derive(Clone, Copy, Debug, Default, PartialEq, Eq)]
pub struct Seen {
    pub line: usize,
    pub length: usize,
    pub tapes: usize,
    pub texts: usize,
    pub refusals: usize,
    pub writes: usize,
    pub reads: usize,
    pub differences: usize,
}

// One more of a number, up to 4,294,967,295.
pub fn count(n: &mut usize)
    ensures value { n.new ≡ one_more n.old }
    ensures grows { n.old ≤ n.new }
{
    if *n < 4294967295 {
        *n += 1;
    }
}

// Every byte as two hex digits.
fn say_hex(rt: &impl Print, bytes: &[u8]) -> io::Result<()> {
    let mut digits = [0u8; 4096];
    for part in bytes.chunks(2048) {
        let n = program_io::put_hex(&mut digits, 0, part);
        program_io::print(rt, &digits, n)?;
    }
    Ok(())
}

// `line` and its number; every difference starts so.
fn difference(rt: &impl Print, seen: &mut Seen) -> io::Result<()>
    ensures { Differs seen.old seen.new }
{
    count(&mut seen.differences);
    let line = seen.line;
    print!(rt; "line {line}")
}

// A line of the list that is none: a difference too.
pub fn malformed(rt: &impl Print, seen: &mut Seen) -> io::Result<()>
    ensures { Differs seen.old seen.new }
{
    difference(rt, seen)?;
    println!(rt; ": malformed")
}

// The answer and the bytes that were due, but for what the buffer keeps behind them.
fn expected(rt: &impl Print, due: Due) -> io::Result<()> {
    print!(rt; ": expected ")?;
    match due.refusal {
        None => print!(rt; "{}", due.bytes.len())?,
        Some(number) => print!(rt; "refused {number}")?,
    }
    print!(rt; " ")?;
    say_hex(rt, due.bytes)
}

// The answer and the whole buffer.
fn found(rt: &impl Print, a: Answer, out: &[u8]) -> io::Result<()> {
    print!(rt; " found ")?;
    match a {
        Answer::Count(n) => print!(rt; "{n}")?,
        Answer::End => print!(rt; "the end mark")?,
        refused => print!(rt; "refused {}", tape::answer::number(refused))?,
    }
    print!(rt; " ")?;
    say_hex(rt, out)?;
    println!(rt)
}

// A call that did not answer what was due, or did not leave its buffer so: what was done, with how much room.
pub fn differs(
    rt: &impl Print,
    what: u8,
    due: Due,
    a: Answer,
    out: &[u8],
    seen: &mut Seen,
) -> io::Result<()>
    ensures { Differs seen.old seen.new }
{
    difference(rt, seen)?;
    rt.write_all(&[b' ', what])?;
    print!(rt; " room {}", out.len())?;
    expected(rt, due)?;
    found(rt, a, out)
}

// The same for a line call: where it went on, and the nodes of the text.
pub fn line_differs(
    rt: &impl Print,
    next: usize,
    nodes: &[u8],
    a: Answer,
    out: &[u8],
    seen: &mut Seen,
) -> io::Result<()>
    ensures { Differs seen.old seen.new }
{
    difference(rt, seen)?;
    print!(rt; " line call to {next}: expected a node of ")?;
    say_hex(rt, nodes)?;
    found(rt, a, out)
}

// Whether nothing differed; how much was compared is printed.
pub fn sum(rt: &impl Print, seen: &Seen) -> io::Result<bool>
    ensures { IfOk result (λ same. same ≡ (differences seen.now == 0)) }
{
    let Seen {
        tapes,
        texts,
        refusals,
        writes,
        reads,
        differences,
        ..
    } = *seen;
    print!(rt; "{tapes} tapes, {texts} texts, {refusals} refusals; ")?;
    println!(rt; "{writes} writes and lengths, {reads} reads; {differences} differences")?;
    Ok(differences == 0)
}
