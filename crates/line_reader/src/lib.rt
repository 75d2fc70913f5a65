// Line reading: a text line by line. A line that is refused does not stop the calls.
#![tactic(auto)]

ghost use Rattle.std.specs.Prelude.{◌≡◌, ℕ, ◌+◌, ◌≤◌, length, drop};
ghost use Rattle.line_reader.specs.Cut.{to_first};
ghost use Rattle.line_reader.specs.Book.{end_mark, ends_in_lf, by_book, book};
ghost use Rattle.line_reader.specs.Calls.{step, called, Ran, last_call, nth_call};

use tape::answer::Answer;

// What a call answers, and the next offset.
#[derive(Clone, Copy)]
pub struct Called {
    pub answer: Answer,
    pub at: usize,
}

// The offset behind the next LF, or the text's end.
fn line_end(text: &[u8], at: usize) -> usize
    requires { at ≤ length text.now }
    ensures { result ≡ at + length (to_first (drop at text.now)) }
{
    for i in at..text.len() {
        if text[i] == b'\n' {
            return i + 1;
        }
    }
    text.len()
}

// A line's last byte is LF.
fn ends_in_lf(line: &[u8]) -> bool
    ensures { result ≡ ends_in_lf line.now }
{
    let n = line.len();
    if n == 0 {
        return false;
    }
    line[n - 1] == b'\n'
}

// Reads the bytes of a line: exactly one value or marker, then LF, whose tape is laid at the buffer's start. Refusals 8 and 9 zero the buffer.
fn read_line(line: &[u8], out: &mut [u8]) -> Answer
    ensures { (at : ℕ) → by_book line.now at out.old ≡ called result (at + length line.now) out.new }
{
    if !ends_in_lf(line) {
        output::zero(out);
        return Answer::OutsideGrammar;
    }
    let end = line.len() - 1;
    let limit = reader::limit_of(out.len());
    let Some(made) = reader::write_tape(&line[..end], false, &mut out[..limit]) else {
        output::zero(out);
        return Answer::OutsideGrammar;
    };
    if made.count != 1 {
        output::zero(out);
        return Answer::OutsideGrammar;
    }
    if limit < made.length {
        output::zero(out);
        return Answer::TapeTooLong;
    }
    Answer::Count(made.length)
}

// One call, by the text and an offset: 10 past the text, the end mark at its end, else the bytes through the next LF are read.
pub fn line_at(text: &[u8], at: usize, out: &mut [u8]) -> Called
    ensures { called result.answer result.at out.new ≡ step text.now at out.old }
{
    let n = text.len();
    if n < at {
        return Called {
            answer: Answer::PastText,
            at,
        };
    }
    if at == n {
        return Called {
            answer: Answer::End,
            at,
        };
    }
    let end = line_end(text, at);
    let answer = read_line(&text[at..end], out);
    Called { answer, at: end }
}

// A session: the lent text and the next offset.
#[derive(Drop)]
pub struct Session<'a> {
    pub text: &'a [u8],
    pub at: usize,
}

// A fresh session.
pub fn new<'a>(text: &'a [u8]) -> Session<'a>
    ensures { (result.text ≡ text.entry) × (result.at ≡ 0) }
{
    Session { text, at: 0 }
}

// The session's next call.
pub fn next<'s, 'a, 'b>(s: &'s mut Session<'a>, out: &'b mut [u8]) -> Answer
    ensures { (s.new.text ≡ s.old.text) × (called result s.new.at out.new ≡ step s.old.text.now s.old.at out.old) }
{
    let c = line_at(s.text, s.at, out);
    s.at = c.at;
    c.answer
}

// A call from any offset, by a session of its own: its parameters are plain.
pub fn call_at(text: &[u8], at: usize, out: &mut [u8]) -> Called
    ensures { called result.answer result.at out.new ≡ step text.now at out.old }
{
    let mut s = Session { text, at };
    let answer = next(&mut s, out);
    Called { answer, at: s.at }
}

// As many calls as there are entries, from a fresh session, each from what the last one left: an entry gets its call's answer and offset. Returns the last offset.
pub fn read_lines(text: &[u8], out: &mut [u8], calls: &mut [Called]) -> usize
    ensures { Ran (book (length calls.old) text.now out.old) out.old calls.new result out.new }
{
    let mut s = new(text);
    for i in 0..calls.len() {
        let answer = next(&mut s, out);
        calls[i] = Called { answer, at: s.at };
    }
    s.at
}

// The last of 1 to 32 calls of `read_lines`.
fn last_call(text: &[u8], n: usize, out: &mut [u8]) -> Called
    requires { (1 ≤ n) × (n ≤ 32) }
    ensures { called result.answer result.at out.new ≡ last_call (end_mark 0 out.old) (book n text.now out.old) }
{
    let mut calls = [Called {
        answer: Answer::End,
        at: 0,
    }; 32];
    read_lines(text, out, &mut calls[..n]);
    calls[n - 1]
}

// The call number `n`, from 1 to 32, of a fresh session, by `read_lines`: its parameters are plain. For any other `n` no call is made: the end
// mark, offset 0, and the buffer as it was.
pub fn nth_call(text: &[u8], n: usize, out: &mut [u8]) -> Called
    ensures { called result.answer result.at out.new ≡ nth_call n text.now out.old }
{
    match n {
        1..=32 => last_call(text, n, out),
        _ => Called {
            answer: Answer::End,
            at: 0,
        },
    }
}
