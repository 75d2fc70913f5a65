// The length of a tape's text, worked out in place of writing it.
#![tactic(auto)]

ghost use Rattle.std.specs.Prelude.{◌≡◌};
ghost use Rattle.tape.specs.Answer.{outcome};
ghost use Rattle.measure.specs.Outcome.{text_length, text_length_with};

use tape::answer::Answer;

pub mod blobs;
pub mod clobs;
pub mod decimal;
pub mod escapes;
pub mod float;
pub mod int;
pub mod marks;
pub mod parts;
pub mod text_formatter;
pub mod timestamp;
pub mod walk;

// The number of bytes that `write_stream_with` writes of a tape in a layout under the same setting, in a buffer that is long enough; or its refusal, which is never 6.
pub fn text_length_with(quoted: bool, layout: u32, tape: &[u8]) -> Answer
    ensures { outcome result ≡ text_length_with quoted layout tape.now }
{
    if 2 < layout {
        return Answer::NoLayout;
    }
    let mut sums = [0usize; 4];
    let c = match walk::measure_tape(quoted, tape, &mut sums) {
        Ok(c) => c,
        Err(fault) => return Answer::from(fault),
    };
    if c.noted {
        return Answer::Unsuited;
    }
    let n = sums[0] + sums[1];
    if layout == 2 {
        return Answer::Count(n + sums[3]);
    }
    Answer::Count(n)
}

// The same with the setting off, that of `write_stream`.
pub fn text_length(layout: u32, tape: &[u8]) -> Answer
    ensures { outcome result ≡ text_length layout tape.now }
{
    text_length_with(false, layout, tape)
}
