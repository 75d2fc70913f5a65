// What the programs share: hex digits and refusals put into a buffer, a buffer printed, what the system refused told, an input read, and where
// the parts of an input end.
#![tactic(auto)]

ghost use Rattle.std.specs.Prelude.{◌≡◌, true, ◌+◌, ◌<◌, ◌≤◌, length, drop, IfOk, IfSome};
ghost use Rattle.output.specs.Wrote.{Wrote};
ghost use Rattle.text_rules.specs.Escapes.{hex_digit};
ghost use Rattle.tape.specs.Answer.{outcome};
ghost use Rattle.program_io.specs.Shown.{hex_text, refusal_text, answer_text};
ghost use Rattle.program_io.specs.Framed.{framed, FramesTo, distance};

use std::fmt::{Display, InlineText};
use std::io;
use std::io::Read;
use tape::answer::Answer;

// ---- what is printed. It is put into a buffer, which cannot fail; a `Display` would promise what it writes only where it answers `Ok`

#[tactic(auto, unfolding(text_rules::specs::Escapes::hex_digit))]
fn hex_digit(d: u8) -> u8
    requires { d < 16 }
    ensures { result ≡ hex_digit d }
{
    if d < 10 { b'0' + d } else { b'a' + (d - 10) }
}

// Every byte as two hex digits.
pub fn put_hex(buf: &mut [u8], pos: usize, bytes: &[u8]) -> usize
    ensures { Wrote buf.old buf.new pos result (hex_text bytes.now) }
{
    let mut p = output::bounded(pos);
    for &b in bytes {
        p = output::put_two(buf, p, hex_digit(b / 16), hex_digit(b % 16));
    }
    p
}

// `refused`, a blank and the number of a refusal.
pub fn put_refusal(buf: &mut [u8], pos: usize, number: u8) -> usize
    ensures { Wrote buf.old buf.new pos result (refusal_text number) }
{
    let p = output::put_bytes(buf, pos, b"refused ");
    text_rules::digits::put_digits(buf, p, number as u64)
}

// What a reader answered: the tape at the start of its buffer in hex, `end`, or the refusal.
pub fn put_answer(buf: &mut [u8], pos: usize, a: Answer, out: &[u8]) -> usize
    ensures { Wrote buf.old buf.new pos result (answer_text (outcome a) out.now) }
{
    match a {
        Answer::Count(n) => put_hex(buf, pos, out.get(..n).unwrap_or(out)),
        Answer::End => output::put_bytes(buf, pos, b"end"),
        refused => put_refusal(buf, pos, tape::answer::number(refused)),
    }
}

// The first n bytes of a buffer on standard output. Says whether the buffer has so many, or why they are not out.
pub fn print(rt: &impl Print, buf: &[u8], n: usize) -> io::Result<bool>
    ensures { IfOk result (λ whole. whole ≡ true → n ≤ length buf.now) }
{
    let Some(bytes) = buf.get(..n) else {
        return Ok(false);
    };
    rt.write_all(bytes)?;
    Ok(true)
}

// A sentence on standard error. Where it cannot be written there is no other place for it.
pub fn say(rt: &impl Eprint, sentence: impl Display + Drop) {
    let _ = rt.eprintln(sentence);
}

// The sentence that the system refused something: what, a colon, and why in C's words, without the number that std puts behind them.
pub fn fail(rt: &impl Eprint, what: impl Display + Drop, error: &io::Error) {
    let said = InlineText::<96>::of(error);
    let said = said.as_str();
    let why = said.split_once(" (os error ").map_or(said, |(why, _)| why);
    say(rt, format_args!("{what}: {why}"));
}

// ---- what is read

// Reads until the buffer is full or the input ends, and answers how many bytes of the input stand at the buffer's start.
pub fn read_full(input: &mut impl Read, buf: &mut [u8]) -> io::Result<usize>
    ensures { IfOk result (λ n. n ≤ length buf.new) }
{
    let mut count: usize = 0;
    // A walk: the step is what one read gives.
    while count < buf.len() {
        let n = input.read(&mut buf[count..])?;
        if n == 0 {
            return Ok(count);
        }
        count += n;
    }
    Ok(count)
}

// ---- where the parts of an input end

// The end of the frame at a place, whose head has so many bytes; the last four of these tell how many bytes stand behind them. None where not all
// of the frame is there.
pub fn frame_end(input: &[u8], at: usize, head: usize) -> Option<usize>
    requires at_in_bounds { at ≤ length input.now }
    requires le_head { 4 ≤ head }
    ensures end { result ≡ framed input.now at head }
    ensures within { IfSome result (λ end. (at + head ≤ end) × (end ≤ length input.now)) }
{
    let left = input.len() - at;
    if left < head {
        return None;
    }
    let n = tape::u32_at(input, at + (head - 4)) as usize;
    if left - head < n {
        return None;
    }
    Some(at + (head + n))
}

// Gives the frames of an input to `each`, in order. Whether all of the input is frames that it takes; what stands behind the first that it does not
// take, or that is not whole, is left.
pub fn all_frames<F: FnMut(&[u8]) -> io::Result<bool>>(
    input: &[u8],
    head: usize,
    mut each: F,
) -> io::Result<bool>
    requires callable { F.IsAlwaysCallable each }
    requires le_head { 4 ≤ head }
    ensures { IfOk result (λ whole. whole ≡ true → FramesTo head input.now (length input.now)) }
{
    let mut at: usize = 0;
    // A walk: the step is the frame's length.
    while at < input.len() {
        let Some(end) = frame_end(input, at, head) else {
            return Ok(false);
        };
        if !each(&input[at..end])? {
            return Ok(false);
        }
        at = end;
    }
    Ok(true)
}

// The first place of a byte, from a place on; the input's end where there is none.
pub fn find(input: &[u8], at: usize, x: u8) -> usize
    requires { at ≤ length input.now }
    ensures { (result ≡ at + distance x (drop at input.now)) × (result ≤ length input.now) }
{
    for i in at..input.len() {
        if input[i] == x {
            return i;
        }
    }
    input.len()
}
