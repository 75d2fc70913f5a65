// Writes the texts of tapes on standard input, a line for each: the count or the refusal, a blank, and the whole buffer in hex.
// A tape stands in a frame: a byte layout, or `t` for the tree text, u32 room (at most 4096), u32 length, and its bytes. The buffer has `room` bytes, each `#`
// before the call. The frames and what they must give are the table of tests/writings.py.
#![tactic(auto)]

ghost use Rattle.std.specs.Prelude.{◌≤◌};
ghost use Rattle.output.specs.Wrote.{limit};

use std::io;
use tape::answer::Answer;

fn write(layout: u8, tape: &[u8], out: &mut [u8]) -> Answer {
    match layout {
        b't' => tree::write_tree(tape, out),
        _ => writer::writer::write_stream(u32::from(layout), tape, out),
    }
}

// The count, or the refusal.
fn put_count(line: &mut [u8], a: Answer) -> usize
    ensures { result ≤ limit }
{
    match a {
        Answer::Count(n) => text_rules::digits::put_digits(line, 0, n as u64),
        refused => program_io::put_refusal(line, 0, tape::answer::number(refused)),
    }
}

fn show(
    rt: &impl Print,
    layout: u8,
    tape: &[u8],
    out: &mut [u8],
    line: &mut [u8],
) -> io::Result<()> {
    let a = write(layout, tape, out);
    let p = put_count(line, a);
    let q = output::put(line, p, b' ');
    let r = program_io::put_hex(line, q, out);
    let end = output::put(line, r, b'\n');
    program_io::print(rt, line, end)?;
    Ok(())
}

// Whether a frame asks for a buffer that it can have.
fn show_frame(rt: &impl Print, frame: &[u8], line: &mut [u8]) -> io::Result<bool> {
    let mut out = [b'#'; 4096];
    let Some((head, tape)) = frame.split_at_checked(9) else {
        return Ok(false);
    };
    let room = tape::u32_at(head, 1) as usize;
    let Some(out) = out.get_mut(..room) else {
        return Ok(false);
    };
    show(rt, head[0], tape, out, line)?;
    Ok(true)
}

fn main(rt: HostRuntime) -> io::Result<()> {
    let mut input = [0u8; 65536];
    let mut line = [0u8; 8224];
    let n = program_io::read_full(&mut rt.stdin(), &mut input)?;
    if !program_io::all_frames(&input[..n], 9, |frame| show_frame(&rt, frame, &mut line))? {
        println!(rt; "malformed input")?;
    }
    Ok(())
}
