// Blobs, written: `{{`, base64, `}}`.
ghost use Rattle.std.specs.Prelude.{◌≡◌, ◌+◌, ◌-◌, ◌*◌, ◌/◌, ◌%◌, ◌<◌, ◌≤◌, length, take, drop};
ghost use Rattle.std.proofs.lemmas.List.Edits.{sets};
ghost use Rattle.output.specs.Wrote.{Wrote, limit};
ghost use Rattle.lanes.specs.Sextets.{sextets};
ghost use Rattle.text_rules.specs.Base64.{base64_character, base64};
ghost use Rattle.text_rules.specs.BlobSteps.{printed};
ghost use Rattle.text_rules.specs.Text.{blob_text};

// n where v is m at least, else 0.
fn at_least(v: u8, m: u8, n: u8) -> u8
    ensures { (v < m → result ≡ 0) × (m ≤ v → result ≡ n) }
{
    if v < m { 0 } else { n }
}

// The character of a number of six bits: `A` on, from 26 on `a` on, from 52 on the digits, `+`, `/`. It is a sum, so that the compiler makes
// `print_sextets` a vector loop.
fn character(x: u8) -> u8
    ensures { result ≡ base64_character (x % 64) }
{
    let v = x % 64;
    v + 65 + at_least(v, 26, 6) + at_least(v, 63, 3) - at_least(v, 52, 75) - at_least(v, 62, 15)
}

// The characters in place of the numbers.
fn print_sextets(buf: &mut [u8], from: usize, to: usize)
    requires { (from ≤ to) × (to ≤ length buf.old) }
    ensures { buf.new ≡ sets buf.old from (printed (take (to - from) (drop from buf.old))) }
{
    for i in from..to {
        buf[i] = character(buf[i]);
    }
}

// The numbers of six bits in n bytes of s from a place on, whole groups of three bytes, for which there is room: two groups at once, by words.
// Both loops are walks: the step is six bytes, of a word of eight, and then three.
fn put_sextets(buf: &mut [u8], pos: usize, s: &[u8], from: usize, n: usize) -> usize
    requires n_in_bounds { (from + n ≤ length s.now) × (n % 3 ≡ 0) }
    requires n_in_bounds_2 { pos + n / 3 * 4 ≤ length buf.old }
    ensures bytes { buf.new ≡ sets buf.old pos (sextets (take n (drop from s.now))) }
    ensures place { result ≡ pos + n / 3 * 4 }
{
    let end = from + n;
    let mut p = pos;
    let mut i = from;
    while i + 7 < end {
        output::store::<8>(buf, p, lanes::sextets::spread(output::word_at(s, i)));
        p += 8;
        i += 6;
    }
    while i < end {
        let x = u64::from(s[i]) + 256 * u64::from(s[i + 1]) + 65536 * u64::from(s[i + 2]);
        output::store::<4>(buf, p, lanes::sextets::spread(x));
        p += 4;
        i += 3;
    }
    p
}

// Base64 of n bytes of s from a place on, two at most.
fn put_last(buf: &mut [u8], pos: usize, s: &[u8], from: usize, n: usize) -> usize
    requires n_in_bounds { (from + n ≤ length s.now) × (n ≤ 2) }
    ensures { Wrote buf.old buf.new pos result (base64 (take n (drop from s.now))) }
{
    let none = output::bounded(pos);
    match &s[from..from + n] {
        [a] => {
            let p = output::put_two(buf, pos, character(a / 4), character(a % 4 * 16));
            output::put_two(buf, p, b'=', b'=')
        }
        [a, b] => {
            let p = output::put_two(buf, pos, character(a / 4), character(a % 4 * 16 + b / 16));
            output::put_two(buf, p, character(b % 16 * 4), b'=')
        }
        _ => none,
    }
}

// Base64 of n bytes of s from a place on, whole groups, where there may be too little room.
fn put_groups(buf: &mut [u8], pos: usize, s: &[u8], from: usize, n: usize) -> usize
    requires n_in_bounds { (from + n ≤ length s.now) × (n % 3 ≡ 0) }
    ensures { Wrote buf.old buf.new pos result (base64 (take n (drop from s.now))) }
{
    let mut p = output::bounded(pos);
    for k in 0..n / 3 {
        let i = from + 3 * k;
        let (a, b, c) = (s[i], s[i + 1], s[i + 2]);
        let q = output::put_two(buf, p, character(a / 4), character(a % 4 * 16 + b / 16));
        p = output::put_two(buf, q, character(b % 16 * 4 + c / 64), character(c % 64));
    }
    p
}

// The same with room: the numbers first, then their characters in place of them.
fn put_whole(buf: &mut [u8], pos: usize, s: &[u8], from: usize, n: usize) -> usize
    requires n_in_bounds { (from + n ≤ length s.now) × (n % 3 ≡ 0) }
    requires n_in_bounds_2 { pos + n / 3 * 4 ≤ length buf.old }
    ensures { Wrote buf.old buf.new pos result (base64 (take n (drop from s.now))) }
{
    let p = put_sextets(buf, pos, s, from, n);
    print_sextets(buf, pos, p);
    p
}

// Base64 of n bytes of s from a place on.
fn put_base64(buf: &mut [u8], pos: usize, s: &[u8], from: usize, n: usize) -> usize
    requires n_in_bounds { from + n ≤ length s.now }
    ensures { Wrote buf.old buf.new pos result (base64 (take n (drop from s.now))) }
{
    // where there is no room left, the bytes are counted alone
    if buf.len() <= pos {
        return output::ahead(pos, (n + 2) / 3 * 4);
    }
    let last = n % 3;
    let whole = n - last;
    let p = if whole / 3 * 4 <= buf.len() - pos {
        put_whole(buf, pos, s, from, whole)
    } else {
        put_groups(buf, pos, s, from, whole)
    };
    put_last(buf, p, s, from + whole, last)
}

// The same a block at a time, so that the numbers are near when their characters are put in place of them. `put_base64` is called at two places, so
// that it is not built into the walk, whose step is a block.
fn format_base64(buf: &mut [u8], pos: usize, s: &[u8], from: usize, n: usize) -> usize
    requires n_in_bounds { from + n ≤ length s.now }
    ensures { Wrote buf.old buf.new pos result (base64 (take n (drop from s.now))) }
{
    let mut p = output::bounded(pos);
    let mut i = 0;
    while 3072 < n - i {
        p = put_base64(buf, p, s, from + i, 3072);
        i += 3072;
    }
    put_base64(buf, p, s, from + i, n - i)
}

// A blob that is the n bytes of s from a place on.
pub fn format_blob_at(buf: &mut [u8], pos: usize, s: &[u8], from: usize, n: usize) -> usize
    requires n_in_bounds { from + n ≤ length s.now }
    ensures { Wrote buf.old buf.new pos result (blob_text (take n (drop from s.now))) }
{
    let p = output::put_two(buf, pos, b'{', b'{');
    let e = format_base64(buf, p, s, from, n);
    output::put_two(buf, e, b'}', b'}')
}
