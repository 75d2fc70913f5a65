// The lengths of what a child has: its name, its annotations, its scalar. A scalar is validated where it is measured.
ghost use Rattle.std.specs.Prelude.{◌≡◌, Bool, true, false, [], IfSome, ◌+◌, ◌<◌, ◌≤◌, ◌^◌, length, get_or, take, drop};
ghost use Rattle.std.proofs.Math.Option.{some};
ghost use Rattle.text_rules.specs.Text.{symbol_text};
ghost use Rattle.tape.specs.Bytes.{part};
ghost use Rattle.tape.specs.Tape.{reading, sym_of, syms_of, name_of, notes_of, scalar_of, sym_fault};
ghost use Rattle.tape.specs.CheckSteps.{code_of, scalar_code, syms_front, notes_front};
ghost use Rattle.tape.specs.declared.Frame.TheVariants.{Struct};
ghost use Rattle.writer.specs.Text.{name_text, notes_text};
ghost use Rattle.tape.specs.Steps.{size_taken};
ghost use Rattle.writer.specs.Steps.{name_in, notes_in};
ghost use Rattle.measure.specs.Sums.{leaf_length, sym_length};
ghost use Rattle.measure.specs.Steps.{quotes_of, quoting, is_untold, notes_as};

use crate::text_formatter;
use tape::{Frame, Scalar, check};

// ---- symbols

// True only where the n bytes of the tape from a place on are a symbol that stands bare with the setting off. It may say no too often.
fn plain_at(tape: &[u8], from: usize, n: usize) -> bool
    requires { from + n + 8 ≤ length tape.now }
    ensures { result ≡ true → (quoted : Bool) → length (symbol_text quoted (take n (drop from tape.now))) ≡ n + quotes_of quoted }
{
    1 <= n && n <= 8 && text_rules::short_words::is_plain(output::word_at(tape, from), n)
}

// The length of the symbol that is the n first bytes of s, sixteen at most; 0 where that is not told. Its words are handed on as numbers, which takes less
// time than to hand on s.
fn first_words_length(s: &[u8], n: usize, quotes: usize) -> usize
    requires n_in_bounds { n + 8 ≤ length s.now }
    requires n_bound { n ≤ 16 }
    requires quotes_value { quotes ≡ quotes_of (quoting quotes) }
    ensures { 0 < result → result ≡ length (symbol_text (quoting quotes) (take n s.now)) }
{
    if n == 0 {
        return 2;
    }
    if n <= 8 {
        return text_formatter::short_symbol_length(output::word_at(s, 0), n, quotes);
    }
    text_formatter::long_symbol_length(output::word_at(s, 0), output::word_at(s, 8), n, quotes)
}

// The same from a place of the tape on, which is only cut (`symbol_length_at` says why).
fn words_length(tape: &[u8], from: usize, n: usize, quotes: usize) -> usize
    requires n_in_bounds { from + n + 8 ≤ length tape.now }
    requires n_bound { n ≤ 16 }
    requires quotes_value { quotes ≡ quotes_of (quoting quotes) }
    ensures { 0 < result → result ≡ length (symbol_text (quoting quotes) (take n (drop from tape.now))) }
{
    let to = from + n + 8;
    first_words_length(&tape[from..to], n, quotes)
}

// The length of the symbol that is the n bytes of the tape from a place on.
fn symbol_length(tape: &[u8], from: usize, n: usize, quotes: usize) -> usize
    requires n_in_bounds { from + n + 8 ≤ length tape.now }
    requires n_bound { n < 2 ^ 32 }
    requires quotes_value { quotes ≡ quotes_of (quoting quotes) }
    ensures { result ≡ length (symbol_text (quoting quotes) (take n (drop from tape.now))) }
{
    if n <= 16 {
        let r = words_length(tape, from, n, quotes);
        if r != 0 {
            return r;
        }
    }
    text_formatter::symbol_length_at(tape, from, n, quotes)
}

// ---- what stands before a value

// The symbol at a place, and `: `.
fn name_length(tape: &[u8], at: usize, end: usize, quotes: usize) -> usize
    requires at_le_end { at ≤ end }
    requires end_in_bounds { end + 8 ≤ length tape.now }
    requires end_value { name_of Struct (part tape.now at end) ≡ some (name_in Struct (part tape.now at end), size_taken (name_of Struct (part tape.now at end))) }
    requires quotes_value { quotes ≡ quotes_of (quoting quotes) }
    ensures { result ≡ length (name_text (quoting quotes) (name_in Struct (part tape.now at end))) }
{
    let n = tape::u32_at(tape, at + 1) as usize;
    let from = at + 5;
    // 6 is text, 7 an identifier
    if tape[at] < 7 {
        if plain_at(tape, from, n) {
            return n + quotes + 2;
        }
        return symbol_length(tape, from, n, quotes) + 2;
    }
    text_formatter::symbol_id_length(n as u32) + 2
}

// A field's name, where the child at a place has one.
pub fn field_name_length(tape: &[u8], at: usize, end: usize, frame: Frame, quotes: usize) -> usize
    requires at_le_end { at ≤ end }
    requires end_in_bounds { end + 8 ≤ length tape.now }
    requires end_value { name_of frame (part tape.now at end) ≡ some (name_in frame (part tape.now at end), size_taken (name_of frame (part tape.now at end))) }
    requires quotes_value { quotes ≡ quotes_of (quoting quotes) }
    ensures { result ≡ length (name_text (quoting quotes) (name_in frame (part tape.now at end))) }
{
    match frame {
        Frame::Struct => name_length(tape, at, end, quotes),
        Frame::Top | Frame::List | Frame::Sexp => 0,
    }
}

// What annotations have that are not refused: where they end; the length of their text; whether there is an identifier but 0 among them.
#[derive(Clone, Copy)]
pub struct Notes {
    pub end: usize,
    pub length: usize,
    pub numbered: bool,
}

// The symbol at a place, which has `size` bytes.
fn sym_length(tape: &[u8], at: usize, end: usize, size: usize, quotes: usize) -> usize
    requires at_le_end { at ≤ end }
    requires end_in_bounds { end + 8 ≤ length tape.now }
    requires tape_len_bound { length tape.now ≤ 1048576 }
    requires size_value { (size ≡ code_of sym_fault (sym_of (part tape.now at end))) × (1 ≤ size) }
    requires quotes_value { quotes ≡ quotes_of (quoting quotes) }
    ensures { result ≡ sym_length (quoting quotes) (part tape.now at end) }
{
    // 6 is text, 7 an identifier
    if tape[at] < 7 {
        let n = size - 5;
        if plain_at(tape, at + 5, n) {
            return n + quotes;
        }
        return symbol_length(tape, at + 5, n, quotes);
    }
    text_formatter::symbol_id_length(tape::u32_at(tape, at + 1) as u32)
}

// n symbols from a place on, each with `::` behind it, if none is refused, which is always by 2.
fn notes_from(tape: &[u8], at: usize, end: usize, n: u8, quotes: usize) -> Option<Notes>
    requires at_le_end { at ≤ end }
    requires end_in_bounds { end + 8 ≤ length tape.now }
    requires tape_len_bound { length tape.now ≤ 1048576 }
    requires quotes_value { quotes ≡ quotes_of (quoting quotes) }
    ensures front { notes_as result ≡ syms_front at false (syms_of n (part tape.now at end)) }
    ensures length { IfSome result (λ notes. notes.length ≡ length (notes_text (quoting quotes) (reading (syms_of n (part tape.now at end)) [] (λ ss m. ss)))) }
{
    let mut p = at;
    let mut length: usize = 0;
    let mut numbered = false;
    for _ in 0..n {
        let size = check::sym_size(tape, p, end);
        if size == 0 {
            return None;
        }
        length += sym_length(tape, p, end, size, quotes) + 2;
        if check::is_number(tape, p, end) {
            numbered = true;
        }
        p += size;
    }
    Some(Notes {
        end: p,
        length,
        numbered,
    })
}

// The annotations at a place, where their kind byte stands.
pub fn notes_at(tape: &[u8], at: usize, end: usize, quotes: usize) -> Option<Notes>
    requires at_lt_end { at < end }
    requires end_in_bounds { end + 8 ≤ length tape.now }
    requires tape_len_bound { length tape.now ≤ 1048576 }
    requires at_value { get_or tape.now at 0 ≡ 13 }
    requires quotes_value { quotes ≡ quotes_of (quoting quotes) }
    ensures front { notes_as result ≡ notes_front at true false (notes_of (part tape.now at end)) }
    ensures length { IfSome result (λ notes. notes.length ≡ length (notes_text (quoting quotes) (notes_in (part tape.now at end)))) }
{
    if end - at < 2 {
        return None;
    }
    let n = tape[at + 1];
    if n < 1 || 16 < n {
        return None;
    }
    notes_from(tape, at + 2, end, n, quotes)
}

// ---- scalars

// A scalar by its size, which is 0 where it is refused by 2 and 1 where it is refused by 4, and by the length of its text, which is 0 where
// `untold_length` tells it. Where it is refused, the length says nothing.
#[derive(Clone, Copy)]
pub struct Leaf {
    pub size: usize,
    pub length: usize,
}

// The symbol at a place, which is text.
fn symbol_leaf(tape: &[u8], at: usize, end: usize, quotes: usize) -> Leaf
    requires at_lt_end { at < end }
    requires end_in_bounds { end + 8 ≤ length tape.now }
    requires at_value { get_or tape.now at 0 ≡ 6 }
    requires quotes_value { quotes ≡ quotes_of (quoting quotes) }
    ensures size { result.size ≡ scalar_code (scalar_of (part tape.now at end)) }
    ensures length { 2 ≤ result.size → 0 < result.length → result.length ≡ leaf_length (quoting quotes) (part tape.now at end) }
{
    let size = check::word_size(tape, at, end);
    if size < 5 {
        return Leaf { size, length: 0 };
    }
    let from = at + 5;
    let n = size - 5;
    if plain_at(tape, from, n) {
        return Leaf {
            size,
            length: n + quotes,
        };
    }
    if 16 < n {
        return Leaf { size, length: 0 };
    }
    Leaf {
        size,
        length: words_length(tape, from, n, quotes),
    }
}

// The scalar at a place, which is no clob and no blob.
pub fn leaf_at(tape: &[u8], at: usize, end: usize, quotes: usize) -> Leaf
    requires at_lt_end { at < end }
    requires end_in_bounds { end + 8 ≤ length tape.now }
    requires at_bound { get_or tape.now at 0 < 9 }
    requires quotes_value { quotes ≡ quotes_of (quoting quotes) }
    ensures size { result.size ≡ scalar_code (scalar_of (part tape.now at end)) }
    ensures length { 2 ≤ result.size → 0 < result.length → result.length ≡ leaf_length (quoting quotes) (part tape.now at end) }
    ensures untold { 2 ≤ result.size → result.length ≡ 0 → is_untold (get_or tape.now at 0) ≡ true }
{
    match tape[at] {
        0 => Leaf {
            size: check::null_size(tape, at, end),
            length: text_formatter::null_length(tape[at + 1]),
        },
        1 => Leaf {
            size: check::bool_size(tape, at, end),
            length: text_formatter::bool_length(tape[at + 1] == 1),
        },
        2 => Leaf {
            size: check::int_size(tape, at, end),
            length: crate::int::integer_length(tape::int_of(tape, at)),
        },
        3 => Leaf {
            size: check::float_size(tape, at, end),
            length: 0,
        },
        4 => {
            let size = check::decimal_size(tape, at, end);
            if size == 0 {
                return Leaf { size, length: 0 };
            }
            Leaf {
                size,
                length: crate::decimal::decimal_length(
                    tape[at + 1] == 1,
                    tape::magnitude_of(tape, at),
                    tape::exponent_of(tape, at),
                ),
            }
        }
        5 => {
            let size = check::timestamp_size(tape, at, end);
            if size == 0 {
                return Leaf { size, length: 0 };
            }
            Leaf {
                size,
                length: crate::timestamp::timestamp_length(tape::timestamp_of(tape, at)),
            }
        }
        6 => symbol_leaf(tape, at, end, quotes),
        7 => Leaf {
            size: check::sym_size(tape, at, end),
            length: text_formatter::symbol_id_length(tape::u32_at(tape, at + 1) as u32),
        },
        _ => Leaf {
            size: check::text_size(tape, at, end),
            length: 0,
        },
    }
}

// The length of a scalar's text that is not told yet: of a float, of a symbol that has over sixteen bytes or starts with `$`, of a string, of a clob. It is
// called at two places, so that it is not built into the walk.
pub fn untold_length(tape: &[u8], at: usize, end: usize, quotes: usize) -> usize
    requires at_le_end { at ≤ end }
    requires end_in_bounds { end + 8 ≤ length tape.now }
    requires bound { 2 ≤ scalar_code (scalar_of (part tape.now at end)) }
    requires at_value { is_untold (get_or tape.now at 0) ≡ true }
    requires quotes_value { quotes ≡ quotes_of (quoting quotes) }
    ensures { result ≡ leaf_length (quoting quotes) (part tape.now at end) }
{
    let k = tape[at];
    if k == 3 {
        let Some(s) = tape::float_of(tape::u64_at(tape, at + 1)) else {
            return 0;
        };
        let Scalar::Float(x) = s else {
            return 0;
        };
        return crate::float::float_length(x);
    }
    let n = tape::u32_at(tape, at + 1) as usize;
    let from = at + 5;
    if k == 6 {
        return text_formatter::symbol_length_at(tape, from, n, quotes);
    }
    if k == 8 {
        return text_formatter::string_length_at(tape, from, n);
    }
    let to = from + n;
    crate::clobs::clob_length(&tape[from..to])
}
