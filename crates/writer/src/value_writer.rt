// The text of values, and of the nodes of a body in a layout.
ghost use Rattle.std.specs.Prelude.{◌≡◌, ◌++◌, ◌+◌, ◌-◌, ◌*◌, ◌<◌, ◌≤◌, length, get_or, take, drop, Bool, true, false, not, eqb, [], Some};
ghost use Rattle.output.specs.Wrote.{Wrote, limit};
ghost use Rattle.tape.specs.Bytes.{part};
ghost use Rattle.std.proofs.Math.Option.{some};
ghost use Rattle.tape.specs.Tape.{reading, name_of, notes_of, head_of, scalar_of, walk};
ghost use Rattle.tape.specs.Steps.{place_of, meant_scalar, size_of, head_at, size_taken, node_at, size_at, problem_at};
ghost use Rattle.output.specs.Logic.{if, ascii};
ghost use Rattle.writer.specs.Text.{scalar_text, name_text, notes_text, blanks, closing, indented, texts};
ghost use Rattle.text_rules.specs.Text.{symbol_text, string_text, clob_text, blob_text};
ghost use Rattle.tape.specs.declared.Frame.TheVariants.{Struct};
ghost use Rattle.writer.specs.Steps.{Rare, name_in, notes_in, front, separating, Plain, item, items};

use crate::whitespace_config;
use crate::whitespace_config::Separator;
use floats::float;
use tape::{Frame, Scalar, Symbol};
use text_rules::text_formatter;

// Where writing and reading stand: the next position of the buffer, and the next place of the tape.
#[derive(Clone, Copy)]
pub struct Step {
    pub pos: usize,
    pub at: usize,
}

// ---- scalars

// The symbol, string, clob or blob of n bytes whose node stands at a place: its bytes start 5 behind the kind byte. `format_token_at` and
// `format_quoted_at` have two callers, here and in `write_note`, so that they are not built into the walk.
fn write_symbol_text(
    buf: &mut [u8],
    pos: usize,
    tape: &[u8],
    at: usize,
    n: usize,
    end: usize,
    quoted: bool,
) -> usize
    requires n_bound { at + (5 + n) ≤ end }
    requires end_in_bounds { end ≤ length tape.now }
    ensures { Wrote buf.old buf.new pos result (symbol_text quoted (take n (drop 5 (part tape.now at end)))) }
{
    if quoted {
        return text_formatter::format_quoted_at(buf, pos, tape, at + 5, n);
    }
    text_formatter::format_token_at(buf, pos, tape, at + 5, n)
}

fn write_string(buf: &mut [u8], pos: usize, tape: &[u8], at: usize, n: usize, end: usize) -> usize
    requires n_bound { at + (5 + n) ≤ end }
    requires end_in_bounds { end ≤ length tape.now }
    ensures { Wrote buf.old buf.new pos result (string_text (take n (drop 5 (part tape.now at end)))) }
{
    let from = at + 5;
    let to = from + n;
    text_formatter::format_string(buf, pos, &tape[from..to])
}

fn write_clob(buf: &mut [u8], pos: usize, tape: &[u8], at: usize, n: usize, end: usize) -> usize
    requires n_bound { at + (5 + n) ≤ end }
    requires end_in_bounds { end ≤ length tape.now }
    ensures { Wrote buf.old buf.new pos result (clob_text (take n (drop 5 (part tape.now at end)))) }
{
    let from = at + 5;
    let to = from + n;
    text_rules::clobs::format_clob(buf, pos, &tape[from..to])
}

fn write_blob(buf: &mut [u8], pos: usize, tape: &[u8], at: usize, n: usize, end: usize) -> usize
    requires n_bound { at + (5 + n) ≤ end }
    requires end_in_bounds { end ≤ length tape.now }
    ensures { Wrote buf.old buf.new pos result (blob_text (take n (drop 5 (part tape.now at end)))) }
{
    text_rules::blobs::format_blob_at(buf, pos, tape, at + 5, n)
}

// The scalar s, whose node stands at a place: a null, a bool, a float, an identifier, a clob, or a blob, for which `write_value` does not ask. `write_leaf` writes the
// other kinds itself.
fn write_scalar(buf: &mut [u8], pos: usize, tape: &[u8], at: usize, end: usize, s: Scalar) -> Step
    requires s_bound { at + size_of s ≤ end }
    requires end_in_bounds { end ≤ length tape.now }
    requires rare { Rare s }
    ensures text { (quoted : Bool) → Wrote buf.old buf.new pos result.pos (scalar_text quoted (meant_scalar s (part tape.now at end))) }
    ensures place { result.at ≡ at + size_of s }
{
    match s {
        Scalar::Null(t) => Step {
            pos: text_formatter::format_null(buf, pos, t),
            at: at + 2,
        },
        Scalar::Bool(b) => Step {
            pos: text_formatter::format_bool(buf, pos, b),
            at: at + 2,
        },
        Scalar::Float(x) => Step {
            pos: float::format_float(buf, pos, x),
            at: at + 9,
        },
        Scalar::Id(i) => Step {
            pos: text_formatter::format_symbol_id(buf, pos, i),
            at: at + 5,
        },
        Scalar::Clob(n) => Step {
            pos: write_clob(buf, pos, tape, at, n, end),
            at: at + (5 + n),
        },
        Scalar::Blob(n) => Step {
            pos: write_blob(buf, pos, tape, at, n, end),
            at: at + (5 + n),
        },
        _ => Step { pos, at },
    }
}

// ---- a child

// What ends a name.
fn write_colon(buf: &mut [u8], pos: usize) -> usize
    ensures { Wrote buf.old buf.new pos result (ascii ": ") }
{
    output::put_two(buf, pos, b':', b' ')
}

// True only where the n bytes of the tape from a place on are a symbol that stands bare. It may say no too often.
fn plain_at(tape: &[u8], from: usize, n: usize, quoted: bool) -> bool
    requires { from + 8 ≤ length tape.now }
    ensures { result ≡ true → Plain quoted tape.now from n }
{
    !quoted && 1 <= n && n <= 8 && text_rules::short_words::is_plain(output::word_at(tape, from), n)
}

// The symbol at a place, which is text, and `: `.
fn write_text_name(
    buf: &mut [u8],
    pos: usize,
    tape: &[u8],
    at: usize,
    end: usize,
    quoted: bool,
) -> Step
    requires at_le_end { at ≤ end }
    requires end_in_bounds { end + 8 ≤ length tape.now }
    requires end_value { name_of Struct (part tape.now at end) ≡ some (name_in Struct (part tape.now at end), size_taken (name_of Struct (part tape.now at end))) }
    requires at_bound { get_or tape.now at 0 < 7 }
    ensures text { Wrote buf.old buf.new pos result.pos (name_text quoted (name_in Struct (part tape.now at end))) }
    ensures place { result.at ≡ at + size_taken (name_of Struct (part tape.now at end)) }
{
    let n = tape::u32_at(tape, at + 1) as usize;
    let from = at + 5;
    if plain_at(tape, from, n, quoted) {
        let p = output::put_le(buf, pos, output::word_at(tape, from), n);
        let q = write_colon(buf, p);
        return Step {
            pos: q,
            at: from + n,
        };
    }
    let p = write_symbol_text(buf, pos, tape, at, n, end, quoted);
    let q = write_colon(buf, p);
    Step {
        pos: q,
        at: from + n,
    }
}

// The symbol at a place, and `: `.
fn write_name(buf: &mut [u8], pos: usize, tape: &[u8], at: usize, end: usize, quoted: bool) -> Step
    requires at_le_end { at ≤ end }
    requires end_in_bounds { end + 8 ≤ length tape.now }
    requires end_value { name_of Struct (part tape.now at end) ≡ some (name_in Struct (part tape.now at end), size_taken (name_of Struct (part tape.now at end))) }
    ensures text { Wrote buf.old buf.new pos result.pos (name_text quoted (name_in Struct (part tape.now at end))) }
    ensures place { result.at ≡ at + size_taken (name_of Struct (part tape.now at end)) }
{
    // 6 is text, 7 an identifier
    if tape[at] < 7 {
        return write_text_name(buf, pos, tape, at, end, quoted);
    }
    let i = tape::u32_at(tape, at + 1);
    let p = text_formatter::format_symbol_id(buf, pos, i as u32);
    let q = write_colon(buf, p);
    Step { pos: q, at: at + 5 }
}

// A field's name, where the child at a place has one.
fn encode_field_name(
    buf: &mut [u8],
    pos: usize,
    tape: &[u8],
    at: usize,
    end: usize,
    frame: Frame,
    quoted: bool,
) -> Step
    requires pos_le_limit { pos ≤ limit }
    requires at_le_end { at ≤ end }
    requires end_in_bounds { end + 8 ≤ length tape.now }
    requires end_value { name_of frame (part tape.now at end) ≡ some (name_in frame (part tape.now at end), size_taken (name_of frame (part tape.now at end))) }
    ensures text { Wrote buf.old buf.new pos result.pos (name_text quoted (name_in frame (part tape.now at end))) }
    ensures place { result.at ≡ at + size_taken (name_of frame (part tape.now at end)) }
{
    match frame {
        Frame::Struct => write_name(buf, pos, tape, at, end, quoted),
        Frame::Top | Frame::List | Frame::Sexp => Step { pos, at },
    }
}

// What ends an annotation.
fn write_colons(buf: &mut [u8], pos: usize) -> usize
    ensures { Wrote buf.old buf.new pos result (ascii "::") }
{
    let p = output::put(buf, pos, b':');
    output::put(buf, p, b':')
}

// The annotation of n bytes whose node stands at a place, and `::`.
fn write_note(
    buf: &mut [u8],
    pos: usize,
    tape: &[u8],
    at: usize,
    n: usize,
    end: usize,
    quoted: bool,
) -> usize
    requires n_bound { at + (5 + n) ≤ end }
    requires end_in_bounds { end ≤ length tape.now }
    ensures { Wrote buf.old buf.new pos result (symbol_text quoted (take n (drop 5 (part tape.now at end))) ++ ascii "::") }
{
    if quoted {
        let p = text_formatter::format_quoted_at(buf, pos, tape, at + 5, n);
        return write_colons(buf, p);
    }
    let p = text_formatter::format_token_at(buf, pos, tape, at + 5, n);
    write_colons(buf, p)
}

// The annotations at a place; the value behind them stands at `value`.
fn write_notes(
    buf: &mut [u8],
    pos: usize,
    tape: &[u8],
    at: usize,
    end: usize,
    value: usize,
    quoted: bool,
) -> usize
    requires at_le_end { at ≤ end }
    requires end_in_bounds { end ≤ length tape.now }
    requires end_value { place_of at (notes_of (part tape.now at end)) ≡ Some value }
    ensures { Wrote buf.old buf.new pos result (notes_text quoted (notes_in (part tape.now at end))) }
{
    if at == value {
        return output::bounded(pos);
    }
    let mut p = output::bounded(pos);
    let mut from = at + 2;
    // A walk: the step is the symbol's size.
    while from < value {
        let Some(s) = tape::sym_at(tape, from, end) else {
            return p;
        };
        match s {
            Symbol::Text(n) => {
                p = write_note(buf, p, tape, from, n, end, quoted);
                from = from + (5 + n);
            }
            Symbol::Id(i) => {
                p = text_formatter::format_symbol_id(buf, p, i);
                p = write_colons(buf, p);
                from = from + 5;
            }
        }
    }
    p
}

// What stands before the value of the child at a place: blanks, its name, and in the tree text its annotations.
fn write_front(
    buf: &mut [u8],
    pos: usize,
    tape: &[u8],
    at: usize,
    end: usize,
    frame: Frame,
    layout: u32,
    width: usize,
    quoted: bool,
) -> Step
    requires pos_le_limit { pos ≤ limit }
    requires at_le_end { at ≤ end }
    requires end_in_bounds { end + 8 ≤ length tape.now }
    requires end_value { head_of frame (part tape.now at end) ≡ some (head_at frame (part tape.now at end), size_taken (head_of frame (part tape.now at end))) }
    requires end_bound { at + size_taken (head_of frame (part tape.now at end)) < end }
    ensures text { Wrote buf.old buf.new pos result.pos (front quoted layout width (head_at frame (part tape.now at end))) }
    ensures place { result.at ≡ at + size_taken (head_of frame (part tape.now at end)) }
{
    let o = whitespace_config::write_blanks(buf, pos, width);
    let n = encode_field_name(buf, o, tape, at, end, frame, quoted);
    let from = n.at;
    if tape[from] != 13 {
        return n;
    }
    let Some(value) = tape::notes_end(tape, from, end) else {
        return n;
    };
    if layout == 3 {
        let q = write_notes(buf, n.pos, tape, from, end, value, quoted);
        return Step { pos: q, at: value };
    }
    Step {
        pos: n.pos,
        at: value,
    }
}

// What follows a child; `more`: another child follows it. In the tree text nothing follows the last.
fn write_ending(buf: &mut [u8], pos: usize, layout: u32, s: Separator, more: bool) -> usize
    ensures { Wrote buf.old buf.new pos result (if (if (eqb layout 3) (not more) false) [] (separating s)) }
{
    if more {
        return whitespace_config::write_separator(buf, pos, s);
    }
    if layout == 3 {
        return output::bounded(pos);
    }
    whitespace_config::write_separator(buf, pos, s)
}

// The symbol at a place, which is text.
fn write_symbol(
    buf: &mut [u8],
    pos: usize,
    tape: &[u8],
    at: usize,
    end: usize,
    quoted: bool,
) -> Step
    requires at_le_end { at ≤ end }
    requires end_in_bounds { end + 8 ≤ length tape.now }
    requires nonzero { 0 < size_taken (scalar_of (part tape.now at end)) }
    requires at_value { get_or tape.now at 0 ≡ 6 }
    ensures text { Wrote buf.old buf.new pos result.pos (reading (scalar_of (part tape.now at end)) [] (λ s n. scalar_text quoted s)) }
    ensures place { result.at ≡ at + size_taken (scalar_of (part tape.now at end)) }
{
    let n = tape::u32_at(tape, at + 1) as usize;
    let from = at + 5;
    if plain_at(tape, from, n, quoted) {
        let p = output::put_le(buf, pos, output::word_at(tape, from), n);
        return Step {
            pos: p,
            at: from + n,
        };
    }
    let p = write_symbol_text(buf, pos, tape, at, n, end, quoted);
    Step {
        pos: p,
        at: from + n,
    }
}

// The scalar at a place. The frequent kinds are written straight from the tape, the others through `Scalar`.
fn write_leaf(buf: &mut [u8], pos: usize, tape: &[u8], at: usize, end: usize, quoted: bool) -> Step
    requires at_le_end { at ≤ end }
    requires end_in_bounds { end + 8 ≤ length tape.now }
    requires nonzero { 0 < size_taken (scalar_of (part tape.now at end)) }
    ensures text { Wrote buf.old buf.new pos result.pos (reading (scalar_of (part tape.now at end)) [] (λ s n. scalar_text quoted s)) }
    ensures place { result.at ≡ at + size_taken (scalar_of (part tape.now at end)) }
{
    let k = tape[at];
    if k == 2 {
        let p = numbers::int::format_integer(buf, pos, tape::int_of(tape, at));
        return Step { pos: p, at: at + 9 };
    }
    if k == 4 {
        let m = tape::magnitude_of(tape, at);
        let e = tape::exponent_of(tape, at);
        let p = numbers::decimal::format_text(buf, pos, tape[at + 1] == 1, m, e);
        return Step {
            pos: p,
            at: at + 14,
        };
    }
    if k == 5 {
        let p = numbers::timestamp::format(buf, pos, tape::timestamp_of(tape, at));
        return Step {
            pos: p,
            at: at + 16,
        };
    }
    if k == 6 {
        return write_symbol(buf, pos, tape, at, end, quoted);
    }
    if k == 8 {
        let n = tape::u32_at(tape, at + 1) as usize;
        let p = write_string(buf, pos, tape, at, n, end);
        return Step {
            pos: p,
            at: at + (5 + n),
        };
    }
    let Some(s) = tape::scalar_at(tape, at, end) else {
        return Step {
            pos: output::bounded(pos),
            at,
        };
    };
    write_scalar(buf, pos, tape, at, end, s)
}

// The blob at a place. As a function of its own it leaves the walk's other kinds as quick as they were.
fn write_blob_node(buf: &mut [u8], pos: usize, tape: &[u8], at: usize, end: usize) -> Step
    requires at_le_end { at ≤ end }
    requires end_in_bounds { end + 8 ≤ length tape.now }
    requires nonzero { 0 < size_taken (scalar_of (part tape.now at end)) }
    requires at_value { get_or tape.now at 0 ≡ 15 }
    ensures text { (quoted : Bool) → Wrote buf.old buf.new pos result.pos (reading (scalar_of (part tape.now at end)) [] (λ s n. scalar_text quoted s)) }
    ensures place { result.at ≡ at + size_taken (scalar_of (part tape.now at end)) }
{
    let n = tape::u32_at(tape, at + 1) as usize;
    let p = write_blob(buf, pos, tape, at, n, end);
    Step {
        pos: p,
        at: at + (5 + n),
    }
}

// The version marker. A literal is stored where its function starts, so it stays out of the walk.
fn write_marker(buf: &mut [u8], pos: usize) -> usize
    ensures { Wrote buf.old buf.new pos result (ascii "$ion_1_0") }
{
    output::put_bytes(buf, pos, b"$ion_1_0")
}

// What follows the last child of a container.
fn write_close(buf: &mut [u8], pos: usize, width: usize, frame: Frame) -> usize
    ensures { Wrote buf.old buf.new pos result (blanks width ++ closing frame) }
{
    if width == 0 {
        return whitespace_config::write_end(buf, pos, frame);
    }
    let p = output::put_repeated(buf, pos, b' ', width);
    whitespace_config::write_end(buf, p, frame)
}

// ---- values and the nodes of a body, where nothing is wrong with them

// The container at a place, before which `width` blanks stand. Its body is opened while `depth` more may be.
#[cycle(write_container_write_nodes_write_value)]
fn write_container(
    tape: &[u8],
    at: usize,
    end: usize,
    depth: usize,
    layout: u32,
    width: usize,
    quoted: bool,
    buf: &mut [u8],
    pos: usize,
) -> Step
    requires at_le_end { at ≤ end }
    requires end_in_bounds { end + 8 ≤ length tape.now }
    requires width_bound { 2 * depth + width ≤ 256 }
    requires end_value { problem_at depth (part tape.now at end) ≡ 0 }
    requires bound { (10 ≤ get_or tape.now at 0) × (get_or tape.now at 0 ≡ 14 → ⊥) × (get_or tape.now at 0 ≡ 15 → ⊥) }
    ensures text { Wrote buf.old buf.new pos result.pos (item quoted layout width (node_at depth (part tape.now at end))) }
    ensures place { result.at ≡ at + size_at (part tape.now at end) }
{
    let inner = tape::check::frame_of(tape[at]);
    let start = at + 5;
    let stop = start + tape::u32_at(tape, at + 1) as usize;
    let p = whitespace_config::write_start(buf, pos, layout, inner);
    let deeper = whitespace_config::indentation(layout, width);
    let q = write_nodes(
        tape, start, stop, inner, depth, layout, deeper, quoted, buf, p,
    );
    let r = write_close(buf, q, width, inner);
    Step { pos: r, at: stop }
}

// The value at a place, before which `width` blanks stand.
#[cycle(write_container_write_nodes_write_value)]
fn write_value(
    tape: &[u8],
    at: usize,
    end: usize,
    depth: usize,
    layout: u32,
    width: usize,
    quoted: bool,
    buf: &mut [u8],
    pos: usize,
) -> Step
    requires at_le_end { at ≤ end }
    requires end_in_bounds { end + 8 ≤ length tape.now }
    requires width_bound { 2 * depth + width ≤ 256 }
    requires end_value { problem_at depth (part tape.now at end) ≡ 0 }
    ensures text { Wrote buf.old buf.new pos result.pos (item quoted layout width (node_at depth (part tape.now at end))) }
    ensures place { result.at ≡ at + size_at (part tape.now at end) }
{
    let k = tape[at];
    if k < 10 {
        return write_leaf(buf, pos, tape, at, end, quoted);
    }
    if k == 14 {
        let p = write_marker(buf, pos);
        return Step { pos: p, at: at + 1 };
    }
    if k == 15 {
        return write_blob_node(buf, pos, tape, at, end);
    }
    write_container(tape, at, end, depth, layout, width, quoted, buf, pos)
}

// The nodes of a body, with `width` blanks before each. This body and those inside it are `depth` at most. Eight bytes stand behind every body,
// as the trailer does, so that a word may be loaded at any place of it. Every width up to 128 may be handed at every depth up to 65. In Pretty
// a width of 2 or more gives the lines that 2 gives, with the further blanks before each.
#[cycle(write_container_write_nodes_write_value)]
pub fn write_nodes(
    tape: &[u8],
    from: usize,
    end: usize,
    frame: Frame,
    depth: usize,
    layout: u32,
    width: usize,
    quoted: bool,
    buf: &mut [u8],
    pos: usize,
) -> usize
    requires from_le_end { from ≤ end }
    requires end_in_bounds { end + 8 ≤ length tape.now }
    requires pos_le_limit { pos ≤ limit }
    requires width_bound { 2 * depth + width ≤ 258 }
    requires end_value { (walk depth frame (part tape.now from end)).1 ≡ 0 }
    ensures text { Wrote buf.old buf.new pos result (items quoted layout frame width (walk depth frame (part tape.now from end)).0) }
    ensures moved { layout ≡ 2 → 2 ≤ width → Wrote buf.old buf.new pos result (indented (width - 2) (texts quoted 2 frame 2 (walk depth frame (part tape.now from end)).0)) }
{
    if depth == 0 {
        return pos;
    }
    let s = whitespace_config::separator_of(layout, frame);
    let mut at = from;
    let mut p = pos;
    // A walk: the step is the node's size.
    while at < end {
        let f = write_front(buf, p, tape, at, end, frame, layout, width, quoted);
        let v = write_value(
            tape,
            f.at,
            end,
            depth - 1,
            layout,
            width,
            quoted,
            buf,
            f.pos,
        );
        p = write_ending(buf, v.pos, layout, s, v.at < end);
        at = v.at;
    }
    p
}
