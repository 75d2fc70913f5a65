// The spellings of the list: hex for tapes, and for texts the bytes themselves, with `%` and two hex digits in place of those that would not
// show.
ghost use Rattle.std.specs.Prelude.{◌<◌, ◌≤◌, length};
ghost use Rattle.listing.specs.Spelling.{bytes_of, Decodes};
ghost use Rattle.listing.specs.DecodeSteps.{PairAt, OneAt};
ghost use Rattle.listing.specs.declared.decode.Form.TheVariants.{Hex, Text};

#[derive(Clone, Copy)]
pub enum Form {
    Hex,
    Text,
}

// The byte that two hex digits spell, and where its spelling ends.
fn pair_at(said: &[u8], at: usize) -> Option<(u8, usize)>
    requires { at ≤ length said.now }
    ensures { PairAt said.now at result }
{
    if said.len() - at < 2 {
        return None;
    }
    let h = char::from(said[at]).to_digit(16)?;
    let l = char::from(said[at + 1]).to_digit(16)?;
    Some(((h * 16 + l) as u8, at + 2))
}

// The byte that is spelled at a place, and where its spelling ends.
fn one_at(said: &[u8], at: usize, form: Form) -> Option<(u8, usize)>
    requires { at < length said.now }
    ensures { OneAt form said.now at result }
{
    match form {
        Form::Hex => pair_at(said, at),
        Form::Text => {
            if said[at] == b'%' {
                return pair_at(said, at + 1);
            }
            Some((said[at], at + 1))
        }
    }
}

// How many bytes are spelled, which are put at the buffer's start. A walk: the step is the spelling's length.
fn decode(said: &[u8], form: Form, out: &mut [u8]) -> Option<usize>
    ensures { Decodes (bytes_of form 0 said.now) out.old out.new result }
{
    let mut n: usize = 0;
    let mut at: usize = 0;
    while at < said.len() {
        let (b, next) = one_at(said, at, form)?;
        if out.len() <= n {
            return None;
        }
        out[n] = b;
        n += 1;
        at = next;
    }
    Some(n)
}

// The bytes of a tape.
pub fn hex(said: &[u8], out: &mut [u8]) -> Option<usize>
    ensures { Decodes (bytes_of Hex 0 said.now) out.old out.new result }
{
    decode(said, Form::Hex, out)
}

// The bytes of a text.
pub fn text(said: &[u8], out: &mut [u8]) -> Option<usize>
    ensures { Decodes (bytes_of Text 0 said.now) out.old out.new result }
{
    decode(said, Form::Text, out)
}
