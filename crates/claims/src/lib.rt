// The claims: theorems over the definitions below, and, as running code, the round trip and the length before the writing. docs/CLAIMS.md is their
// index.
#![tactic(auto)]

ghost use Rattle.std.specs.Prelude.{◌≡◌, length};
ghost use Rattle.tape.specs.Answer.{outcome};
ghost use Rattle.tape.specs.Tape.{nodes_of};
ghost use Rattle.writer.specs.Text.{stream_text};
ghost use Rattle.writer.specs.Outcome.{streamed_with, leaves_with};
ghost use Rattle.measure.specs.Outcome.{text_length_with};
ghost use Rattle.tree.specs.Text.{tree_text};
ghost use Rattle.tree.specs.Outcome.{tree_length_with};
ghost use Rattle.claims.specs.Back.{back_answer, back_leaves};
ghost use Rattle.claims.specs.Reserved.{room_for, reserved_answer, reserved_leaves};

use tape::answer::Answer;

// Writes a tape's text in a layout, under a setting of the writer, and reads it back: what stands in `out` is the tape itself.
pub fn write_and_read(
    quoted: bool,
    layout: u32,
    tape: &[u8],
    text: &mut [u8],
    out: &mut [u8],
) -> Answer
    ensures answer { outcome result ≡ back_answer (streamed_with quoted layout tape.now (length text.old)) tape.now (length out.old) }
    ensures text { text.new ≡ leaves_with quoted layout tape.now text.old }
    ensures tape { out.new ≡ back_leaves (streamed_with quoted layout tape.now (length text.old)) tape.now out.old }
{
    let a = writer::writer::write_stream_with(quoted, layout, tape, text);
    let Answer::Count(n) = a else {
        return a;
    };
    reader::read_text(&text[..n], out)
}

// How many bytes a text of k bytes gets: as many, or one less.
fn room_for(k: usize, less: bool) -> usize
    ensures { result ≡ room_for less k }
{
    if less {
        if k == 0 {
            return 0;
        }
        return k - 1;
    }
    k
}

// Measures a tape's text in a layout, under a setting of the writer, and writes it in exactly as many bytes of `out`; or in one byte less, where `less`
// asks for it.
pub fn measure_and_write(
    quoted: bool,
    layout: u32,
    tape: &[u8],
    less: bool,
    out: &mut [u8],
) -> Answer
    ensures answer { outcome result ≡ reserved_answer less (text_length_with quoted layout tape.now) (length out.old) }
    ensures buffer { out.new ≡ reserved_leaves less (text_length_with quoted layout tape.now) (stream_text quoted layout (nodes_of tape.now)) out.old }
{
    let a = measure::text_length_with(quoted, layout, tape);
    let Answer::Count(k) = a else {
        return a;
    };
    if out.len() < k {
        return Answer::TextTooLong;
    }
    let n = room_for(k, less);
    writer::writer::write_stream_with(quoted, layout, tape, &mut out[..n])
}

// The same with the tree text.
pub fn measure_and_write_tree(quoted: bool, tape: &[u8], less: bool, out: &mut [u8]) -> Answer
    ensures answer { outcome result ≡ reserved_answer less (tree_length_with quoted tape.now) (length out.old) }
    ensures buffer { out.new ≡ reserved_leaves less (tree_length_with quoted tape.now) (tree_text quoted (nodes_of tape.now)) out.old }
{
    let a = tree::tree_length_with(quoted, tape);
    let Answer::Count(k) = a else {
        return a;
    };
    if out.len() < k {
        return Answer::TextTooLong;
    }
    let n = room_for(k, less);
    tree::write_tree_with(quoted, tape, &mut out[..n])
}
