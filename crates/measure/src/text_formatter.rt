// The lengths of what `text_rules::text_formatter` writes: nulls, bools, identifiers, strings, symbols.
ghost use Rattle.std.specs.Prelude.{◌+◌, ◌-◌, ◌<◌, ◌≤◌, ◌^◌, ◌≡◌, true, ◌++◌, length, get_or, take, drop};
ghost use Rattle.output.specs.Wrote.{le_bytes};
ghost use Rattle.text_rules.specs.Text.{symbol_text, symbol_id_text, string_text, null_text, bool_text};
ghost use Rattle.text_rules.specs.Words.{is_start};
ghost use Rattle.text_rules.specs.WordSteps.{all_part, is_bare};
ghost use Rattle.measure.specs.Steps.{quotes_of, quoting};

pub fn null_length(t: u8) -> usize
    ensures { result ≡ length (null_text t) }
{
    match t {
        0 => 4,
        1 => 9,
        2 => 8,
        3 => 10,
        4 => 12,
        5 => 14,
        6 => 11,
        7 => 11,
        8 => 9,
        9 => 9,
        10 => 9,
        11 => 9,
        12 => 11,
        _ => 5,
    }
}

pub fn bool_length(b: bool) -> usize
    ensures { result ≡ length (bool_text b) }
{
    if b { 4 } else { 5 }
}

pub fn symbol_id_length(n: u32) -> usize
    ensures { result ≡ length (symbol_id_text n) }
{
    1 + text_rules::digits::digit_count(n as u64)
}

// A string that is the n bytes of s from a place on, behind which eight bytes stand.
pub fn string_length_at(s: &[u8], from: usize, n: usize) -> usize
    requires n_in_bounds { from + n + 8 ≤ length s.now }
    requires n_bound { n < 2 ^ 32 }
    ensures { result ≡ length (string_text (take n (drop from s.now))) }
{
    crate::escapes::escaped_text_body_length(s, from, n) + 2
}

// ---- symbols, by their bytes in words. `quotes` is 2 where every symbol text is quoted and else 0: how many quote marks there are around one that could
// stand bare. It stands for the setting, as adding a number takes less time than asking.

pub fn quotes_of(quoted: bool) -> usize
    ensures { result ≡ quotes_of quoted }
{
    if quoted { 2 } else { 0 }
}

// Of the n lowest bytes of x, eight at most; 0 where that is not told, as they start with `$`.
pub fn short_symbol_length(x: u64, n: usize, quotes: usize) -> usize
    requires quotes_value { quotes ≡ quotes_of (quoting quotes) }
    requires le_n { (1 ≤ n) × (n ≤ 8) }
    ensures { 0 < result → result ≡ length (symbol_text (quoting quotes) (le_bytes n x)) }
{
    if x % 256 == 0x24 {
        return 0;
    }
    if lanes::is_identifier_word(x, n) {
        if lanes::starts_with_letter(x) {
            if text_rules::short_words::is_keyword_word(x, n) {
                return n + 2;
            }
            return n + quotes;
        }
        return n + 2;
    }
    n + 2 + crate::marks::escapes_add(x, n)
}

// Of the eight bytes of x and the n - 8 lowest of y, sixteen at most; 0 where that is not told, as they start with `$`.
pub fn long_symbol_length(x: u64, y: u64, n: usize, quotes: usize) -> usize
    requires quotes_value { quotes ≡ quotes_of (quoting quotes) }
    requires le_n { (9 ≤ n) × (n ≤ 16) }
    ensures { 0 < result → result ≡ length (symbol_text (quoting quotes) (le_bytes 8 x ++ le_bytes (n - 8) y)) }
{
    if x % 256 == 0x24 {
        return 0;
    }
    if lanes::is_identifier_word(x, 8) {
        if lanes::is_identifier_word(y, n - 8) {
            if lanes::starts_with_letter(x) {
                return n + quotes;
            }
            return n + 2;
        }
    }
    n + 2 + crate::marks::escapes_add(x, 8) + crate::marks::escapes_add(y, n - 8)
}

// The n first bytes of s are letters, digits, `_` and `$`.
fn is_word(s: &[u8], n: usize) -> bool
    requires { (1 ≤ n) × (n + 8 ≤ length s.now) }
    ensures { result ≡ all_part (take n s.now) }
{
    let mut i: usize = 0;
    // A walk: the step is a word, and the last word is tested behind it.
    while i + 8 < n {
        if !lanes::is_identifier_word(output::word_at(s, i), 8) {
            return false;
        }
        i += 8;
    }
    lanes::is_identifier_word(output::word_at(s, i), n - i)
}

// Whether text of bytes of identifiers alone, which starts as an identifier does, stands bare as a symbol. Of other text it says nothing.
fn stands_bare(text: &[u8]) -> bool
    requires { 1 ≤ length text.now }
    ensures { all_part text.now ≡ true → is_start (get_or text.now 0 0) ≡ true → result ≡ is_bare text.now }
{
    if text[0] != b'$' {
        // no keyword is longer; the call takes the text through memory
        if 5 < text.len() {
            return true;
        }
        return !text_rules::words::token_is_keyword(text);
    }
    if text_rules::words::token_resembles_symbol_id(text) {
        return false;
    }
    !text_rules::words::token_resembles_version_marker(text)
}

// A symbol that is the n first bytes of s, behind which eight bytes stand.
fn first_symbol_length(s: &[u8], n: usize, quotes: usize) -> usize
    requires quotes_value { quotes ≡ quotes_of (quoting quotes) }
    requires n_in_bounds { n + 8 ≤ length s.now }
    requires n_bound { n < 2 ^ 32 }
    ensures { result ≡ length (symbol_text (quoting quotes) (take n s.now)) }
{
    if n == 0 {
        return 2;
    }
    if text_rules::words::is_start(s[0]) {
        if is_word(s, n) {
            if stands_bare(&s[..n]) {
                return n + quotes;
            }
            // no byte of these is escaped
            return n + 2;
        }
    }
    crate::escapes::escaped_text_body_length(s, 0, n) + 2
}

// The same from a place on. It does nothing but cut: then the compiler hands on where s starts, and not s, which would go through memory.
pub fn symbol_length_at(s: &[u8], from: usize, n: usize, quotes: usize) -> usize
    requires quotes_value { quotes ≡ quotes_of (quoting quotes) }
    requires n_in_bounds { from + n + 8 ≤ length s.now }
    requires n_bound { n < 2 ^ 32 }
    ensures { result ≡ length (symbol_text (quoting quotes) (take n (drop from s.now))) }
{
    let to = from + n + 8;
    first_symbol_length(&s[from..to], n, quotes)
}
