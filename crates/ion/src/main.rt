// One program for the command line: `ion WORD [FILE]`, `ion length WORD [FILE]`, or `ion find OFFSET NAME [FILE]`. The word says what to do with a tape or a text, which comes from the file or from
// standard input; before a word for one of the four texts, or for its length, `--quoted` has every symbol text quoted. What it gives goes to standard
// output, and a sentence for each refusal to standard error. The script `ion` of the repository makes the exit status from these sentences.
#![tactic(auto)]

mod input;
mod words;

ghost use Rattle.std.specs.Prelude.{◌≡◌, ◌+◌, ◌<◌, ◌≤◌, IfOk, vec_len};

use field_index::{Entry, Name, Refusal};
use ion_show::{line, show};
use line_reader::Called;
use program_io::{fail, say};
use std::alloc::{AllocError, Global};
use std::env::FillError;
use std::fmt::Display;
use std::io;
use std::rt::{Env, Runtime};
use tape::answer::{Answer, Fault};
use text_rules::words::Kind;
use words::Word;

// ---- sentences on standard error. The script `ion` tells the exit status by how they start

// Why a file or standard input cannot be read, as errno has it.
fn cannot_read(rt: &impl Eprint, name: &str, error: &io::Error) {
    fail(rt, format_args!("ion: cannot read {name}"), error);
}

fn too_long(rt: &impl Eprint, room: usize) {
    say(
        rt,
        format_args!("ion: the input is longer than {room} bytes, which is all there is room for"),
    );
}

fn reason(number: u8) -> &'static str {
    match number {
        1 => {
            "the tape has under 8 or over 1,048,576 bytes, or its trailer does not tell its length"
        }
        2 => "a node is outside the layout of tapes, or the number of top-level nodes is wrong",
        3 => "a container is opened while 64 are open",
        4 => "a float is finite and no whole number of magnitude up to 2^53",
        0 | 5 => {
            "compact, lines and pretty take no annotations; tree takes one value, no marker and no identifier but $0"
        }
        6 => "the text is longer than 4,200,000 bytes",
        7 => "there is no such layout",
        8 => "the text is outside the grammar (split shows it line by line)",
        9 => "the tape is longer than 1,048,576 bytes",
        10 => "the offset is past the text",
        11 => "no struct starts at the offset (show tells the offsets)",
        12 => "the struct has more than 65,536 fields",
        13 => {
            "the text is outside the old grammar, which takes control characters raw (split shows its lines by the strict one)"
        }
        _ => "the output is longer than the buffer",
    }
}

// A refusal of the table.
fn refusal(rt: &impl Eprint, number: u8) {
    let why = reason(number);
    say(
        rt,
        format_args!("ion: refusal {number}: {why} (docs/FORMAT.md)"),
    );
}

// A refusal whose cause stands at an offset.
fn refusal_at(rt: &impl Eprint, number: u8, offset: usize) {
    let why = reason(number);
    say(
        rt,
        format_args!("ion: refusal {number} at offset {offset}: {why} (docs/FORMAT.md)"),
    );
}

// How many lines of a text were refused.
fn refused_lines(rt: &impl Eprint, refused: usize, lines: usize) {
    say(rt, format_args!("ion: refused lines: {refused} of {lines}"));
}

// How many characters of a text were replaced, which is no refusal.
fn replaced_characters(rt: &impl Eprint, replaced: usize) {
    say(rt, format_args!("ion: replaced characters: {replaced}"));
}

// What the words do.
const HELP: &str =
    "use: ion [--quoted] WORD [FILE], ion [--quoted] length compact|lines|pretty|tree [FILE], or ion find OFFSET NAME [FILE]
From a tape, of at most 1,048,576 bytes:
  compact  its Ion text, values parted by blanks
  lines    its Ion text, one value a line
  pretty   its Ion text, indented
  tree     the text of its one value, annotations included
  length   how many bytes one of these four texts has; a second word names it
  --quoted before one of these five words: every symbol text is quoted
  check    whether it is a good tape
  show     its nodes, one a line: offset, kind and value
  find     the latest field NAME of the struct at OFFSET: where it stands, and its nodes; $7 is an identifier, and a text if single quote marks stand around it
From an Ion text, of at most 4,200,000 bytes:
  read     its tape
  split    its lines: number, offset, length, and what each is
  convert  a stored text, the raw control characters that read refuses as \\x escapes; how many were replaced is said on standard error
No FILE, or -: standard input. What is refused is said on standard error.
docs/FORMAT.md says what tapes and texts are, and when each refusal comes.";

fn help(rt: &(impl Print + Eprint)) {
    print_line(rt, HELP);
}

// A sentence on how the program was called, and what the words do.
fn wrong_use(rt: &impl Eprint, why: &str) {
    say(rt, format_args!("ion: wrong use: {why}\n{HELP}"));
}

// ---- tapes

// A refusal of a tape; 2, 3 and 4 with the offset of what is wrong, which is the trailer's where all nodes are good.
fn refuse(rt: &(impl Print + Eprint), number: u8, tape: &[u8], text: &mut [u8], spare: &mut [u8]) {
    match number {
        2..=4 => refusal_at(rt, number, show::walk(rt, tape, false, text, spare)),
        _ => refusal(rt, number),
    }
}

// The number of the layout that a word names; none for the tree text.
fn layout_of(word: Word) -> Option<u32> {
    match word {
        Word::Compact => Some(0),
        Word::Lines => Some(1),
        Word::Pretty => Some(2),
        _ => None,
    }
}

// A text in a layout, or the tree text.
fn write(quoted: bool, word: Word, tape: &[u8], text: &mut [u8]) -> Answer {
    match layout_of(word) {
        Some(layout) => writer::writer::write_stream_with(quoted, layout, tape, text),
        None => tree::write_tree_with(quoted, tape, text),
    }
}

// A text to standard output, or why there is none.
fn give_text(
    rt: &(impl Print + Eprint),
    quoted: bool,
    word: Word,
    tape: &[u8],
    text: &mut [u8],
    spare: &mut [u8],
) {
    let a = write(quoted, word, tape, text);
    let Answer::Count(n) = a else {
        refuse(rt, tape::answer::number(a), tape, text, spare);
        return;
    };
    line::emit(rt, text, n);
}

// The length of a text in a layout, or of the tree text.
fn length(quoted: bool, word: Word, tape: &[u8]) -> Answer {
    match layout_of(word) {
        Some(layout) => measure::text_length_with(quoted, layout, tape),
        None => tree::tree_length_with(quoted, tape),
    }
}

// The length of a text to standard output, or why there is none.
fn give_length(
    rt: &(impl Print + Eprint),
    quoted: bool,
    word: Word,
    tape: &[u8],
    text: &mut [u8],
    spare: &mut [u8],
) {
    let a = length(quoted, word, tape);
    let Answer::Count(n) = a else {
        refuse(rt, tape::answer::number(a), tape, text, spare);
        return;
    };
    print_line(rt, n);
}

// Text and LF to standard output, or a sentence.
fn print_line(rt: &(impl Print + Eprint), text: impl Display + Drop) {
    if let Err(e) = rt.println(text) {
        program_io::fail(rt, "ion: cannot write to standard output", &e);
    }
}

// Whether a tape is good; before that, where `aloud` asks for them, its nodes up to the first that is not.
fn check(rt: &(impl Print + Eprint), tape: &[u8], aloud: bool, text: &mut [u8], spare: &mut [u8]) {
    let checked = tape::check::check_tape(tape);
    if let Err(Fault::Misfit) = checked {
        refusal(rt, 1);
        return;
    }
    let stopped = show::walk(rt, tape, aloud, text, spare);
    match checked {
        Err(fault) => refuse(rt, fault.number(), tape, text, spare),
        Ok(c) => {
            if stopped == show::body_end(tape) {
                let length = tape.len();
                let count = c.count;
                print_line(
                    rt,
                    format_args!("good tape: bytes {length}, top-level nodes {count}"),
                );
            }
        }
    }
}

fn with_tape(
    rt: &(impl Print + Eprint),
    quoted: bool,
    word: Word,
    tape: &[u8],
    text: &mut [u8],
    spare: &mut [u8],
) {
    match word {
        Word::Check => check(rt, tape, false, text, spare),
        Word::Show => check(rt, tape, true, text, spare),
        _ => give_text(rt, quoted, word, tape, text, spare),
    }
}

// ---- a field by its name

// The offset that a command line says, in digits alone.
fn offset_of(s: &[u8]) -> Option<usize> {
    if s.is_empty() {
        return None;
    }
    let Some((n, end)) = text_rules::digits::digits_at(s, 0, 0) else {
        return None;
    };
    if end != s.len() {
        return None;
    }
    Some(n as usize)
}

// `$` and a number is an identifier, all else a text.
fn key_of(name: &[u8]) -> Name<'_> {
    let w = text_rules::words::word_at(name, 0);
    if w.end != name.len() {
        return Name::Text(name);
    }
    let kind = w.kind;
    let Kind::Number(i) = kind else {
        return Name::Text(name);
    };
    Name::Id(u64::from(i))
}

// A name in quote marks is the text between them.
fn looked_up<'a>(tape: &'a [u8], at: usize, name: &'a [u8]) -> Result<Option<Entry>, Refusal> {
    if let [b'\'', text @ .., b'\''] = name {
        return field_index::look_up(tape, at, Name::Text(text));
    }
    field_index::look_up(tape, at, key_of(name))
}

// The latest field with a name: where it stands, and its nodes as `show` has them; or why there is none.
fn find<'a>(
    rt: &(impl Print + Eprint),
    tape: &'a [u8],
    at: usize,
    name: &'a [u8],
    text: &mut [u8],
    spare: &mut [u8],
) {
    let found = looked_up(tape, at, name);
    match found {
        Ok(Some(e)) => {
            let name = e.name;
            let value = e.value;
            print_line(
                rt,
                format_args!("name at offset {name}, value at offset {value}"),
            );
            show::field(rt, tape, e.name, text, spare);
        }
        Ok(None) => say(rt, "ion: no field of the struct has this name"),
        Err(refusal) => refuse(rt, u8::from(refusal), tape, text, spare),
    }
}

// ---- texts

fn give_tape(rt: &(impl Print + Eprint), text: &[u8], tape: &mut [u8]) {
    let a = reader::read_text(text, tape);
    let Answer::Count(n) = a else {
        refusal(rt, tape::answer::number(a));
        return;
    };
    line::emit(rt, tape, n);
}

// ---- a text line by line: what each line is, or which refusal it got, so that a damaged list can be looked at

// Behind a position, the tree text of a tape, or the line itself where it has none. Says whether it is out.
fn value_out(
    rt: &(impl Print + Eprint),
    tape: &[u8],
    own: &[u8],
    spare: &mut [u8],
    pos: usize,
) -> bool {
    if spare.len() < pos {
        return false;
    }
    let a = tree::write_tree(tape, &mut spare[pos..]);
    let Answer::Count(n) = a else {
        if line::emit(rt, spare, pos) {
            return line::emit(rt, own, own.len());
        }
        return false;
    };
    if line::emit(rt, spare, output::ahead(pos, n)) {
        return line::emit(rt, b"\n", 1);
    }
    false
}

// A line that is a value, whose tape was read: its kind and its text.
fn value_line(
    rt: &(impl Print + Eprint),
    own: &[u8],
    tape: &[u8],
    number: usize,
    offset: usize,
    spare: &mut [u8],
) -> bool {
    if tape.len() == 0 {
        return false;
    }
    let p = line::put_place(spare, number, offset, own.len());
    let q = line::put_kind(spare, p, tape[0]);
    let r = output::put(spare, q, b' ');
    value_out(rt, tape, own, spare, r)
}

// A line that was refused, and its bytes.
fn refused_line(
    rt: &(impl Print + Eprint),
    own: &[u8],
    refusal: u8,
    number: usize,
    offset: usize,
    spare: &mut [u8],
) -> bool {
    let p = line::put_place(spare, number, offset, own.len());
    let q = output::put_bytes(spare, p, b"refusal ");
    let r = text_rules::digits::put_digits(spare, q, refusal as u64);
    let s = output::put(spare, r, b' ');
    let t = line::put_clipped(spare, s, own);
    let e = output::put(spare, t, b'\n');
    line::emit(rt, spare, e)
}

// The answer of the line at an offset. A refusal zeroes the buffer, so the line is read into no room first, which 8 does not depend on; only
// the tape of a value needs the buffer.
fn call(text: &[u8], at: usize, tape: &mut [u8]) -> Called {
    let c = line_reader::call_at(text, at, &mut tape[0..0]);
    match c.answer {
        Answer::TapeTooLong => line_reader::call_at(text, at, tape),
        _ => c,
    }
}

// What a line is.
fn line_out(
    rt: &(impl Print + Eprint),
    own: &[u8],
    a: Answer,
    number: usize,
    offset: usize,
    tape: &[u8],
    spare: &mut [u8],
) -> bool {
    let Answer::Count(n) = a else {
        return refused_line(rt, own, tape::answer::number(a), number, offset, spare);
    };
    if tape.len() < n {
        return false;
    }
    value_line(rt, own, &tape[0..n], number, offset, spare)
}

// The next offset: a call goes on by at least one byte and stays in the text.
fn later(next: usize, at: usize, end: usize) -> usize
    requires { at < end }
    ensures { (at < result) × (result ≤ end) }
{
    if next <= at {
        return end;
    }
    if end < next {
        return end;
    }
    next
}

// One more, where a line was refused.
fn counting(refused: usize, a: Answer) -> usize
    requires { refused < 18446744073709551615 }
    ensures { result ≤ refused + 1 }
{
    match a {
        Answer::Count(_) => refused,
        _ => refused + 1,
    }
}

fn end_mark(rt: &(impl Print + Eprint), number: usize, offset: usize, spare: &mut [u8]) {
    let p = line::put_place(spare, number, offset, 0);
    let e = output::put_bytes(spare, p, b"end mark\n");
    line::emit(rt, spare, e);
}

// The lines of a text and the end mark, and on standard error how many were refused.
fn split(rt: &(impl Print + Eprint), text: &[u8], tape: &mut [u8], spare: &mut [u8]) {
    if !line::emit(rt, b"   line  offset  length\n", 24) {
        return;
    }
    let mut at: usize = 0;
    let mut number: usize = 0;
    let mut refused: usize = 0;
    // A walk: the step is the line's length.
    while at < text.len() {
        let c = call(text, at, tape);
        let next = later(c.at, at, text.len());
        let a = c.answer;
        if !line_out(rt, &text[at..next], a, number + 1, at, tape, spare) {
            return;
        }
        refused = counting(refused, a);
        number += 1;
        at = next;
    }
    end_mark(rt, number + 1, at, spare);
    if 0 < refused {
        refused_lines(rt, refused, number);
    }
}

// ---- a stored text, its raw control characters replaced

// A part of a text that, converted, fits in the longest tape's room.
fn part_end(at: usize, end: usize) -> usize
    requires { at < end }
    ensures { (at < result) × (result ≤ end) }
{
    if end - at <= 262144 { end } else { at + 262144 }
}

// The text converted, part by part. Says whether it is out.
fn converted_out(rt: &(impl Print + Eprint), text: &[u8], spare: &mut [u8]) -> bool {
    let mut at: usize = 0;
    while at < text.len() {
        let end = part_end(at, text.len());
        let n = converter::put_converted(spare, 0, &text[at..end]);
        if !line::emit(rt, spare, n) {
            return false;
        }
        at = end;
    }
    true
}

// The text converted, and on standard error how many characters were replaced.
fn convert(rt: &(impl Print + Eprint), text: &[u8], spare: &mut [u8]) {
    if !converter::is_old(text) {
        refusal(rt, 13);
        return;
    }
    if converted_out(rt, text, spare) {
        replaced_characters(rt, converter::replaced_count(text));
    }
}

fn with_text(
    rt: &(impl Print + Eprint),
    word: Word,
    text: &[u8],
    tape: &mut [u8],
    spare: &mut [u8],
) {
    match word {
        Word::Read => give_tape(rt, text, tape),
        Word::Convert => convert(rt, text, spare),
        _ => split(rt, text, tape, spare),
    }
}

// ---- the command line

// The error of a name that is too long, by C's number.
const ENAMETOOLONG: i32 = 36;

// Room for a text. The line of a node that fills a tape fits too: at most four bytes for each of its own.
fn text_buffer(alloc: Global) -> Result<Vec<u8>, AllocError>
    ensures { IfOk result (λ v. 4200000 ≡ vec_len v) }
{
    Ok(vec![in alloc; 0; 4200000]?)
}

// Room for the longest tape.
fn tape_buffer(alloc: Global) -> Result<Vec<u8>, AllocError>
    ensures { IfOk result (λ v. 1048576 ≡ vec_len v) }
{
    Ok(vec![in alloc; 0; 1048576]?)
}

fn on_tape(
    rt: &impl Runtime,
    quoted: bool,
    word: Word,
    name: &[u8],
    text: &mut [u8],
    tape: &mut [u8],
    spare: &mut [u8],
) {
    if let Some(n) = input::read(rt, name, tape) {
        with_tape(rt, quoted, word, &tape[..n], text, spare);
    }
}

fn on_text(
    rt: &impl Runtime,
    word: Word,
    name: &[u8],
    text: &mut [u8],
    tape: &mut [u8],
    spare: &mut [u8],
) {
    if let Some(n) = input::read(rt, name, text) {
        with_text(rt, word, &text[..n], tape, spare);
    }
}

// The length of the text that the word behind `length` names. Not one with `on_tape`: a function of both would take as many parameters, and
// what is done with the tape besides.
fn on_length(
    rt: &impl Runtime,
    quoted: bool,
    word: Word,
    name: &[u8],
    text: &mut [u8],
    tape: &mut [u8],
    spare: &mut [u8],
) {
    if let Some(n) = input::read(rt, name, tape) {
        give_length(rt, quoted, word, &tape[..n], text, spare);
    }
}

// A word that the program was started with, by its number, at the start of the buffer; none where it is missing or longer than the buffer.
fn argument<'a>(rt: &impl Env, i: usize, buf: &'a mut [u8]) -> &'a [u8] {
    match rt.arg(i, buf) {
        Ok(n) => &buf[..n],
        Err(_) => b"",
    }
}

// The field that the words behind `find` name.
fn on_find(rt: &impl Runtime, name: &[u8], text: &mut [u8], tape: &mut [u8], spare: &mut [u8]) {
    let mut digits = [0u8; 32];
    let Some(at) = offset_of(argument(rt, 2, &mut digits)) else {
        wrong_use(
            rt,
            "find takes an offset, a number below 2^64 in at most 32 digits, and a name",
        );
        return;
    };
    let mut field = [0u8; 4096];
    let Ok(k) = rt.arg(3, &mut field) else {
        wrong_use(rt, "find takes an offset and a name of at most 4,096 bytes");
        return;
    };
    if let Some(n) = input::read(rt, name, tape) {
        find(rt, &tape[..n], at, &field[..k], text, spare);
    }
}

fn obey_length(
    rt: &impl Runtime,
    quoted: bool,
    word: Option<Word>,
    name: &[u8],
    text: &mut [u8],
    tape: &mut [u8],
    spare: &mut [u8],
) {
    match word {
        Some(word @ (Word::Compact | Word::Lines | Word::Pretty | Word::Tree)) => {
            on_length(rt, quoted, word, name, text, tape, spare)
        }
        _ => wrong_use(rt, "length takes compact, lines, pretty or tree"),
    }
}

// Whether `--quoted` may stand before a word.
fn takes_quoted(word: Option<Word>) -> bool {
    matches!(
        word,
        Some(Word::Compact | Word::Lines | Word::Pretty | Word::Tree | Word::Length)
    )
}

// Does what the word says, with the input of a name; where it is `length`, of the text that `text_word` names.
fn obey(
    rt: &impl Runtime,
    quoted: bool,
    word: Option<Word>,
    text_word: Option<Word>,
    name: &[u8],
    text: &mut [u8],
    tape: &mut [u8],
    spare: &mut [u8],
) {
    let Some(word) = word else {
        wrong_use(rt, "no such word");
        return;
    };
    match word {
        Word::Length => obey_length(rt, quoted, text_word, name, text, tape, spare),
        Word::Find => on_find(rt, name, text, tape, spare),
        Word::Help => help(rt),
        Word::Read | Word::Split | Word::Convert => on_text(rt, word, name, text, tape, spare),
        _ => on_tape(rt, quoted, word, name, text, tape, spare),
    }
}

// Whether the program was started with a word of this number.
fn is_given(rt: &impl Env, i: usize) -> bool {
    !matches!(rt.arg(i, &mut []), Err(FillError::NotPresent))
}

fn word_at(rt: &impl Env, i: usize) -> Option<Word> {
    let mut s = [0u8; 16];
    words::word_of(argument(rt, i, &mut s))
}

// The number of the word that is the file's name, where the first word has this number: `length` has a word of its own before it, `find` two.
fn name_at(word: Option<Word>, at: usize) -> usize
    requires { at ≤ 2 }
    ensures { result ≤ 5 }
{
    match word {
        Some(Word::Length) => at + 2,
        Some(Word::Find) => at + 3,
        _ => at + 1,
    }
}

// Does what the words from one on say.
fn run_from(
    rt: &impl Runtime,
    at: usize,
    quoted: bool,
    text: &mut [u8],
    tape: &mut [u8],
    spare: &mut [u8],
)
    requires { at ≤ 2 }
{
    let word = word_at(rt, at);
    let last = name_at(word, at);
    if is_given(rt, last + 1) {
        wrong_use(rt, "more than a word and a file");
        return;
    }
    let text_word = word_at(rt, at + 1);
    if !is_given(rt, last) {
        obey(rt, quoted, word, text_word, b"-", text, tape, spare);
        return;
    }
    let mut name = [0u8; 4096];
    let Ok(n) = rt.arg(last, &mut name) else {
        cannot_read(rt, "the file", &io::Error::from_raw_os_error(ENAMETOOLONG));
        return;
    };
    obey(rt, quoted, word, text_word, &name[..n], text, tape, spare);
}

fn run(rt: &impl Runtime, text: &mut [u8], tape: &mut [u8], spare: &mut [u8]) {
    if word_at(rt, 1) != Some(Word::Quoted) {
        run_from(rt, 1, false, text, tape, spare);
        return;
    }
    if takes_quoted(word_at(rt, 2)) {
        run_from(rt, 2, true, text, tape, spare);
    } else {
        wrong_use(
            rt,
            "--quoted stands before compact, lines, pretty, tree or length",
        );
    }
}

fn main(rt: HostRuntime) -> Result<(), AllocError> {
    let mut text = text_buffer(rt.alloc())?;
    let mut tape = tape_buffer(rt.alloc())?;
    let mut spare = tape_buffer(rt.alloc())?;
    run(
        &rt,
        text.as_mut_slice(),
        tape.as_mut_slice(),
        spare.as_mut_slice(),
    );
    Ok(())
}
