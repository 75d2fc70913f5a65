// The input: a file by its name, or standard input by the name `-`.
ghost use Rattle.std.specs.Prelude.{◌≤◌, length, IfOk, IfSome};

use std::io::Read;
use std::rt::Runtime;
use std::{fs, io, str};
use text_rules::words::same_word;

// The error of a name that is no text, by C's number: std opens files by names in UTF-8 alone.
const EILSEQ: i32 = 84;

// Reads until the input ends. How many bytes it has; none where the buffer has no room for more that are there.
fn fill(input: &mut impl Read, buf: &mut [u8]) -> io::Result<Option<usize>>
    ensures { IfOk result (λ r. IfSome r (λ n. n ≤ length buf.new)) }
{
    let count = program_io::read_full(input, buf)?;
    let whole = count < buf.len() || program_io::read_full(input, &mut [0u8; 1])? == 0;
    Ok(whole.then_some(count))
}

fn fill_by_name(rt: &impl Runtime, name: &[u8], buf: &mut [u8]) -> io::Result<Option<usize>>
    ensures { IfOk result (λ r. IfSome r (λ n. n ≤ length buf.new)) }
{
    if same_word(name, b"-") {
        return fill(&mut rt.reader(), buf);
    }
    match str::from_utf8(name) {
        Ok(path) => fill(&mut fs::open(rt, path)?, buf),
        Err(_) => Err(io::Error::from_raw_os_error(EILSEQ)),
    }
}

// What a sentence calls the input of a name.
fn called(name: &[u8]) -> &str {
    if same_word(name, b"-") {
        return "standard input";
    }
    str::from_utf8(name).unwrap_or("the file")
}

// Reads the input of a name into the buffer. How many bytes it has; none where it could not be read or is too long, of which it was said why.
pub fn read(rt: &impl Runtime, name: &[u8], buf: &mut [u8]) -> Option<usize>
    ensures { IfSome result (λ n. n ≤ length buf.new) }
{
    match fill_by_name(rt, name, buf) {
        Ok(Some(n)) => Some(n),
        Ok(None) => {
            crate::too_long(rt, buf.len());
            None
        }
        Err(e) => {
            crate::cannot_read(rt, called(name), &e);
            None
        }
    }
}
