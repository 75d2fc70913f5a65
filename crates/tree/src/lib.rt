// The tree text: one element of a tape, as the Rust's `format_element` prints it.
#![tactic(auto)]

ghost use Rattle.std.specs.Prelude.{◌≡◌, length};
ghost use Rattle.tape.specs.Answer.{outcome};
ghost use Rattle.tree.specs.Outcome.{written, leaves, tree_length, written_with, leaves_with, tree_length_with};

use tape::Frame;
use tape::answer::Answer;
use writer::value_writer;

// Writes the tree text of a tape at the buffer's start, with every symbol text quoted if `quoted`. Answers the count of bytes, or 1, 2, 3, 4 or 5
// with the buffer untouched, or 6 with the buffer filled by the text's first bytes.
pub fn write_tree_with(quoted: bool, tape: &[u8], out: &mut [u8]) -> Answer
    ensures answer { outcome result ≡ written_with quoted tape.now (length out.old) }
    ensures buffer { out.new ≡ leaves_with quoted tape.now out.old }
{
    let c = match tape::check::check_tape(tape) {
        Ok(c) => c,
        Err(fault) => return Answer::from(fault),
    };
    // the last of them: the one node is the marker
    if c.count != 1 || c.numbered || tape[0] == 14 {
        return Answer::Unsuited;
    }
    let end = tape.len() - 8;
    let n = value_writer::write_nodes(tape, 0, end, Frame::Top, 65, 3, 0, quoted, out, 0);
    if out.len() < n {
        return Answer::TextTooLong;
    }
    Answer::Count(n)
}

// The same with the setting off: symbol text stands bare where it may.
pub fn write_tree(tape: &[u8], out: &mut [u8]) -> Answer
    ensures answer { outcome result ≡ written tape.now (length out.old) }
    ensures buffer { out.new ≡ leaves tape.now out.old }
{
    write_tree_with(false, tape, out)
}

// The number of bytes that `write_tree_with` writes of a tape under the same setting, in a buffer that is long enough; or its refusal, which is never 6.
pub fn tree_length_with(quoted: bool, tape: &[u8]) -> Answer
    ensures { outcome result ≡ tree_length_with quoted tape.now }
{
    let mut sums = [0usize; 4];
    let c = match measure::walk::measure_tape(quoted, tape, &mut sums) {
        Ok(c) => c,
        Err(fault) => return Answer::from(fault),
    };
    // the last of them: the one node is the marker
    if c.count != 1 || c.numbered || tape[0] == 14 {
        return Answer::Unsuited;
    }
    Answer::Count(sums[0] + (sums[1] - sums[2]))
}

// The same with the setting off, that of `write_tree`.
pub fn tree_length(tape: &[u8]) -> Answer
    ensures { outcome result ≡ tree_length tape.now }
{
    tree_length_with(false, tape)
}
