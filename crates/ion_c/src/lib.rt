// The same calls for C and Rust: numbers, byte slices and slices of entries. A slice passes as a pointer and a length. A call answers a count, of
// bytes finished or measured or of fields, or minus the number of a refusal of document 01 or 02; a lookup answers a place, or -1.
#![tactic(auto)]

ghost use Rattle.std.specs.Prelude.{◌≡◌, true, length};
ghost use Rattle.text_rules.specs.Text.{Sym};
ghost use Rattle.tape.specs.Answer.{outcome};
ghost use Rattle.writer.specs.Outcome.{streamed, leaves, streamed_with, leaves_with};
ghost use Rattle.measure.specs.Outcome.{text_length, text_length_with};
ghost use Rattle.tree.specs.Outcome as tree;
ghost use Rattle.reader.specs.Outcome as read;
ghost use Rattle.converter.specs.Outcome as convert;
ghost use Rattle.line_reader.specs.Calls.{step};
ghost use Rattle.field_index.specs.Index.{indexed};
ghost use Rattle.ion_c.specs.Code.{code, Small, place_code, Near, Indexes, Places};

use field_index::{Entry, Refusal};
use tape::answer::Answer;

// An answer as one number.
fn code_of(a: Answer) -> i64
    requires { Small (outcome a) }
    ensures { result ≡ code (outcome a) }
{
    match a {
        Answer::Count(n) => n as i64,
        Answer::End => 0,
        Answer::Misfit => -1,
        Answer::BadNode => -2,
        Answer::TooDeep => -3,
        Answer::FiniteFloat => -4,
        Answer::Unsuited => -5,
        Answer::TextTooLong => -6,
        Answer::NoLayout => -7,
        Answer::OutsideGrammar => -8,
        Answer::TapeTooLong => -9,
        Answer::PastText => -10,
        Answer::OutsideOldGrammar => -13,
        Answer::OutputTooLong => -14,
    }
}

// The number of fields, or minus the refusal's number.
fn index_code(counted: Result<usize, Refusal>) -> i64
    requires { Small (indexed counted) }
    ensures { result ≡ code (indexed counted) }
{
    match counted {
        Ok(n) => n as i64,
        Err(refusal) => -i64::from(u8::from(refusal)),
    }
}

// The place, or -1.
fn place_code(place: Option<usize>) -> i64
    requires { Near place }
    ensures { result ≡ place_code place }
{
    match place {
        Some(p) => p as i64,
        None => -1,
    }
}

// ---- the writers and the measures under a setting, with their answers as numbers. Each has two callers and is the one caller of what it calls, so that
// the compiler builds that in. The tape is cut anew, at its own ends: so its place and length come in registers, not through memory

fn write_code(quoted: bool, layout: u32, tape: &[u8], out: &mut [u8]) -> i64
    ensures answer { result ≡ code (streamed_with quoted layout tape.now (length out.old)) }
    ensures buffer { out.new ≡ leaves_with quoted layout tape.now out.old }
{
    let whole = &tape[0..tape.len()];
    let a = writer::writer::write_stream_with(quoted, layout, whole, out);
    code_of(a)
}

fn write_tree_code(quoted: bool, tape: &[u8], out: &mut [u8]) -> i64
    ensures answer { result ≡ code (tree.written_with quoted tape.now (length out.old)) }
    ensures buffer { out.new ≡ tree.leaves_with quoted tape.now out.old }
{
    let whole = &tape[0..tape.len()];
    let a = tree::write_tree_with(quoted, whole, out);
    code_of(a)
}

fn length_code(quoted: bool, layout: u32, tape: &[u8]) -> i64
    ensures { result ≡ code (text_length_with quoted layout tape.now) }
{
    let whole = &tape[0..tape.len()];
    let a = measure::text_length_with(quoted, layout, whole);
    code_of(a)
}

fn tree_length_code(quoted: bool, tape: &[u8]) -> i64
    ensures { result ≡ code (tree.tree_length_with quoted tape.now) }
{
    let whole = &tape[0..tape.len()];
    let a = tree::tree_length_with(quoted, whole);
    code_of(a)
}

// ---- with the setting off

// The text of a tape in a layout: 0 Compact, 1 Lines, 2 Pretty.
#[unsafe(no_mangle)]
pub extern "C" fn ion_write(layout: u32, tape: &[u8], out: &mut [u8]) -> i64
    ensures answer { result ≡ code (streamed layout tape.now (length out.old)) }
    ensures buffer { out.new ≡ leaves layout tape.now out.old }
{
    write_code(false, layout, tape, out)
}

// The tree text of a tape.
#[unsafe(no_mangle)]
pub extern "C" fn ion_write_tree(tape: &[u8], out: &mut [u8]) -> i64
    ensures answer { result ≡ code (tree.written tape.now (length out.old)) }
    ensures buffer { out.new ≡ tree.leaves tape.now out.old }
{
    write_tree_code(false, tape, out)
}

// The length of a tape's text in a layout, in place of the text.
#[unsafe(no_mangle)]
pub extern "C" fn ion_length(layout: u32, tape: &[u8]) -> i64
    ensures { result ≡ code (text_length layout tape.now) }
{
    length_code(false, layout, tape)
}

// The length of a tape's tree text.
#[unsafe(no_mangle)]
pub extern "C" fn ion_tree_length(tape: &[u8]) -> i64
    ensures { result ≡ code (tree.tree_length tape.now) }
{
    tree_length_code(false, tape)
}

// ---- the same four with the setting on: every symbol text is quoted

#[unsafe(no_mangle)]
pub extern "C" fn ion_write_quoted(layout: u32, tape: &[u8], out: &mut [u8]) -> i64
    ensures answer { result ≡ code (streamed_with true layout tape.now (length out.old)) }
    ensures buffer { out.new ≡ leaves_with true layout tape.now out.old }
{
    write_code(true, layout, tape, out)
}

#[unsafe(no_mangle)]
pub extern "C" fn ion_write_tree_quoted(tape: &[u8], out: &mut [u8]) -> i64
    ensures answer { result ≡ code (tree.written_with true tape.now (length out.old)) }
    ensures buffer { out.new ≡ tree.leaves_with true tape.now out.old }
{
    write_tree_code(true, tape, out)
}

#[unsafe(no_mangle)]
pub extern "C" fn ion_length_quoted(layout: u32, tape: &[u8]) -> i64
    ensures { result ≡ code (text_length_with true layout tape.now) }
{
    length_code(true, layout, tape)
}

#[unsafe(no_mangle)]
pub extern "C" fn ion_tree_length_quoted(tape: &[u8]) -> i64
    ensures { result ≡ code (tree.tree_length_with true tape.now) }
{
    tree_length_code(true, tape)
}

// ---- the readers

// The tape of a text.
#[unsafe(no_mangle)]
pub extern "C" fn ion_read(text: &[u8], out: &mut [u8]) -> i64
    ensures answer { result ≡ code (read.answer text.now (length out.old)) }
    ensures buffer { out.new ≡ read.leaves text.now out.old }
{
    let a = reader::read_text(text, out);
    code_of(a)
}

// A text of the old grammar as one of the strict grammar.
#[unsafe(no_mangle)]
pub extern "C" fn ion_convert(text: &[u8], out: &mut [u8]) -> i64
    ensures answer { result ≡ code (convert.answer text.now (length out.old)) }
    ensures buffer { out.new ≡ convert.leaves text.now out.old }
{
    let a = converter::convert(text, out);
    code_of(a)
}

// The next line of a text from an offset on, which is moved: the tape of its one value, or 0 at the text's end.
#[unsafe(no_mangle)]
pub extern "C" fn ion_read_line(text: &[u8], at: &mut u64, out: &mut [u8]) -> i64
    ensures answer { result ≡ code (step text.now at.old out.old).answer }
    ensures offset { at.new ≡ (step text.now at.old out.old).at }
    ensures buffer { out.new ≡ (step text.now at.old out.old).buf }
{
    let c = line_reader::line_at(text, *at as usize, out);
    *at = c.at as u64;
    let a = c.answer;
    code_of(a)
}

// The index of the struct node at an offset: the number of its fields, or minus the refusal's number.
#[unsafe(no_mangle)]
pub extern "C" fn ion_index(tape: &[u8], at: u64, entries: &mut [Entry]) -> i64
    ensures { Indexes tape.now at entries.old entries.new result }
{
    let i = field_index::index(tape, at as usize, entries);
    index_code(i)
}

// The place of the first entry with a name that is text, or -1.
#[unsafe(no_mangle)]
pub extern "C" fn ion_find<'a>(tape: &'a [u8], entries: &[Entry], name: &'a [u8]) -> i64
    ensures { Places tape.now (Sym.text name.now) entries.now result }
{
    let f = field_index::find_text(tape, entries, name);
    place_code(f)
}

// The same for an identifier.
#[unsafe(no_mangle)]
pub extern "C" fn ion_find_id(tape: &[u8], entries: &[Entry], id: u32) -> i64
    ensures { Places tape.now (Sym.id id) entries.now result }
{
    let f = field_index::find_id(tape, entries, id);
    place_code(f)
}
