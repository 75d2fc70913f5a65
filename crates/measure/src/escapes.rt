// The length of the body of quoted text and strings.
ghost use Rattle.std.specs.Prelude.{◌+◌, ◌<◌, ◌≤◌, ◌^◌, ◌≡◌, true, [], ◌∷◌, length, take, drop};
ghost use Rattle.text_rules.specs.Escapes.{text_escape, text_body};

// 0 only for a byte that is raw in text: hex 20 at least, no quote mark and no backslash.
fn suspect(b: u8) -> u8
    ensures { result ≡ 0 → text_escape b ≡ b ∷ [] }
{
    if b < 0x20 {
        return 1;
    }
    if b == b'"' {
        return 1;
    }
    if b == b'\'' {
        return 1;
    }
    if b == b'\\' {
        return 1;
    }
    0
}

// 0 only where every byte is raw. There is no way out of the loop, so that the compiler makes it a vector loop. (The writer's own test, with a second
// caller, would no longer be built into the writer.)
fn any_suspect(s: &[u8]) -> u8
    ensures { result ≡ 0 → text_body s.now ≡ s.now }
{
    let mut n = 0;
    for b in s {
        n |= suspect(*b);
    }
    n
}

// By how many bytes the body is longer than the n first bytes of s, word by word.
fn escapes_of(s: &[u8], n: usize) -> usize
    requires n_in_bounds { n + 8 ≤ length s.now }
    requires n_bound { n < 2 ^ 32 }
    ensures { n + result ≡ length (text_body (take n s.now)) }
{
    let mut c: usize = 0;
    let mut i: usize = 0;
    // A walk: the step is a word.
    while i < n {
        c = c + crate::marks::escapes_add(output::word_at(s, i), (n - i).min(8));
        i += 8;
    }
    c
}

// True only where the n bytes of s from a place on are raw, word by word.
fn is_raw_at(s: &[u8], from: usize, n: usize) -> bool
    requires { (1 ≤ n) × (from + n + 8 ≤ length s.now) }
    ensures { result ≡ true → text_body (take n (drop from s.now)) ≡ take n (drop from s.now) }
{
    let mut i: usize = 0;
    // A walk: the step is a word, and the last word is tested behind it.
    while i + 8 < n {
        if !lanes::is_raw_word(output::word_at(s, from + i), 8) {
            return false;
        }
        i += 8;
    }
    lanes::is_raw_word(output::word_at(s, from + i), n - i)
}

// The same of the n first bytes: many at a time, and the rest by words. Of eight bytes at most it says no: these are one word, whose escapes are counted
// as soon.
fn is_raw(s: &[u8], n: usize) -> bool
    requires { n + 8 ≤ length s.now }
    ensures { result ≡ true → text_body (take n s.now) ≡ take n s.now }
{
    if n < 9 {
        return false;
    }
    let m = n / 32 * 32;
    if any_suspect(&s[..m]) != 0 {
        return false;
    }
    if m == n {
        return true;
    }
    is_raw_at(s, m, n - m)
}

// The length of the body of the n first bytes of s, behind which eight bytes stand. Most text has no escapes, which is asked first.
fn first_body_length(s: &[u8], n: usize) -> usize
    requires n_in_bounds { n + 8 ≤ length s.now }
    requires n_bound { n < 2 ^ 32 }
    ensures { result ≡ length (text_body (take n s.now)) }
{
    if is_raw(s, n) {
        return n;
    }
    n + escapes_of(s, n)
}

// The same from a place on, at which s is only cut (`text_formatter::symbol_length_at` says why).
pub fn escaped_text_body_length(s: &[u8], from: usize, n: usize) -> usize
    requires n_in_bounds { from + n + 8 ≤ length s.now }
    requires n_bound { n < 2 ^ 32 }
    ensures { result ≡ length (text_body (take n (drop from s.now))) }
{
    let to = from + n + 8;
    first_body_length(&s[from..to], n)
}
