// Reads texts on standard input, each ended by a byte 255 (which no text of the grammar holds), and prints the tape of each in hex on a
// line, or its refusal. The texts and what they must give are the table of tests/readings.py.
#![tactic(auto)]

use std::io;

// One text's tape, in a buffer of 1024 bytes.
fn show(rt: &impl Print, text: &[u8], line: &mut [u8]) -> io::Result<()> {
    let mut out = [0u8; 1024];
    let a = reader::read_text(text, &mut out);
    let n = program_io::put_answer(line, 0, a, &out);
    let end = output::put(line, n, b'\n');
    program_io::print(rt, line, end)?;
    Ok(())
}

fn all(rt: &impl Print, texts: &[u8]) -> io::Result<()> {
    let mut line = [0u8; 2049];
    for ended in texts.split_inclusive(|b| *b == 255) {
        let Some(text) = ended.strip_suffix(&[255]) else {
            break;
        };
        show(rt, text, &mut line)?;
    }
    Ok(())
}

fn main(rt: HostRuntime) -> io::Result<()> {
    let mut texts = [0u8; 65536];
    let n = program_io::read_full(&mut rt.stdin(), &mut texts)?;
    all(&rt, &texts[..n])
}
