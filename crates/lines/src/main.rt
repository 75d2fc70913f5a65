// Reads a tape on standard input and prints its Lines text, or what is wrong with it.
#![tactic(auto)]

use std::io;
use tape::answer::Answer;

// `refused`, a blank, the number and LF.
fn refuse(rt: &impl Print, a: Answer) -> io::Result<()> {
    let mut line = [0u8; 16];
    let n = program_io::put_refusal(&mut line, 0, tape::answer::number(a));
    let end = output::put(&mut line, n, b'\n');
    program_io::print(rt, &line, end)?;
    Ok(())
}

// The Lines text of a tape as it is, or the refusal on a line.
fn show(rt: &impl Print, tape: &[u8]) -> io::Result<()> {
    let mut out = [0u8; 65536];
    match writer::writer::write_stream(1, tape, &mut out) {
        Answer::Count(n) => {
            program_io::print(rt, &out, n)?;
            Ok(())
        }
        refused => refuse(rt, refused),
    }
}

fn main(rt: HostRuntime) -> io::Result<()> {
    let mut tape = [0u8; 65536];
    let mut input = rt.stdin();
    let n = program_io::read_full(&mut input, &mut tape)?;
    if n == tape.len() && program_io::read_full(&mut input, &mut [0u8; 1])? != 0 {
        return println!(rt; "input too long");
    }
    show(&rt, &tape[..n])
}
