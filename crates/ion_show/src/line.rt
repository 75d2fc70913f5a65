// Parts of a line of output, put into a buffer at a position, and a line that is printed.
ghost use Rattle.std.specs.Prelude.{◌≡◌, true, ◌-◌, ◌≤◌, length};
ghost use Rattle.output.specs.Wrote.{Wrote, limit};
ghost use Rattle.ion_show.specs.Lines.{column, nth, kind_name, place_text, clipped_text};

// Beside the kinds of nodes: a symbol that is a name or an annotation.
pub const NAME: u8 = 16;

pub const ANNOTATION: u8 = 17;

// What is wanting to seven columns.
fn wanting(n: usize) -> usize
    ensures { result ≡ 7 - n }
{
    7usize.saturating_sub(n)
}

// A number at the right of seven columns, or of as many as it takes.
pub fn put_column(line: &mut [u8], pos: usize, n: usize) -> usize
    ensures { Wrote line.old line.new pos result (column n) }
{
    let k = text_rules::digits::digit_count(n as u64);
    let p = output::put_repeated(line, pos, b' ', wanting(k));
    text_rules::digits::put_digits(line, p, n as u64)
}

// The word of a number, from 0, where blanks part the words.
fn put_word(line: &mut [u8], pos: usize, number: u8, words: &[u8]) -> usize
    ensures { Wrote line.old line.new pos result (nth number words.now) }
{
    let mut at: usize = 0;
    for _passed in 0..number {
        let end = program_io::find(words, at, b' ');
        if end == words.len() {
            return output::bounded(pos);
        }
        at = end + 1;
    }
    let end = program_io::find(words, at, b' ');
    output::put_bytes(line, pos, &words[at..end])
}

// What a node is.
pub fn put_kind(line: &mut [u8], pos: usize, kind: u8) -> usize
    ensures { Wrote line.old line.new pos result (kind_name kind) }
{
    put_word(
        line,
        pos,
        kind,
        b"null bool int float decimal timestamp symbol identifier string clob list sexp struct annotated marker blob name annotation",
    )
}

// The number, the offset and the length of a line of a text.
pub fn put_place(line: &mut [u8], number: usize, offset: usize, n: usize) -> usize
    ensures { Wrote line.old line.new 0 result (place_text number offset n) }
{
    let p = put_column(line, 0, number);
    let q = output::put_bytes(line, p, b" ");
    let r = put_column(line, q, offset);
    let s = output::put_bytes(line, r, b" ");
    let t = put_column(line, s, n);
    output::put_bytes(line, t, b"  ")
}

// Bytes as a clob's text has them: a thousand at most.
pub fn put_clipped(line: &mut [u8], pos: usize, s: &[u8]) -> usize
    ensures { Wrote line.old line.new pos result (clipped_text s.now) }
{
    if s.len() <= 1000 {
        return text_rules::clobs::format_clob(line, pos, s);
    }
    let p = text_rules::clobs::format_clob(line, pos, &s[0..1000]);
    output::put_bytes(line, p, b" and more")
}

// The first n bytes of a buffer to standard output: all of them, or a sentence and false.
pub fn emit(rt: &(impl Print + Eprint), line: &[u8], n: usize) -> bool
    ensures { result ≡ true → n ≤ length line.now }
{
    if line.len() < n {
        program_io::say(rt, "ion: a line is longer than the program's buffer");
        return false;
    }
    match rt.write_all(&line[0..n]) {
        Ok(()) => true,
        Err(e) => {
            program_io::fail(rt, "ion: cannot write to standard output", &e);
            false
        }
    }
}
