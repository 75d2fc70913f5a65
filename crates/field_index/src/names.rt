// Names, and the order of the entries that stand for them.
ghost use Rattle.std.specs.Prelude.{◌≡◌};
ghost use Rattle.std.specs.Ordering.{nat_cmp};
ghost use Rattle.std.specs.Cmp.Lexicographic.{slice_cmp};
ghost use Rattle.field_index.specs.Names.{name_at, compared_names, compared, before};
ghost use Rattle.field_index.specs.NameSteps.{meant};

use crate::Entry;
use std::cmp::Ordering;

// A name, by its number or by its bytes. Identifiers come first, then texts, a proper beginning first: this is the derived order.
#[derive(Clone, Copy, PartialEq, Eq, PartialOrd, Ord)]
pub enum Name<'a> {
    Id(u64),
    Text(&'a [u8]),
}

// The name at an offset; the empty text where no symbol node starts there.
#[inline(always)]
pub fn name_at(tape: &[u8], at: usize) -> Name<'_>
    ensures { meant result ≡ name_at tape.now at }
{
    let len = tape.len();
    if len < 5 || len - 5 < at {
        return Name::Text(&[]);
    }
    let n = tape::u32_at(tape, at + 1);
    let from = at + 5;
    match tape[at] {
        7 => Name::Id(n),
        6 if n as usize <= len - from => Name::Text(&tape[from..from + n as usize]),
        _ => Name::Text(&[]),
    }
}

// Texts by std's order, which looks at many bytes at once. Out of line, so that its few callers stay small.
#[inline(never)]
fn compare_behind(s: &[u8], t: &[u8]) -> Ordering
    ensures { result ≡ slice_cmp nat_cmp s.now t.now }
{
    s.cmp(t)
}

// Texts by their bytes, a proper beginning first. Most differ in one of the first eight, which are looked at one by one.
#[inline(always)]
fn compare_texts(s: &[u8], t: &[u8]) -> Ordering
    ensures { result ≡ slice_cmp nat_cmp s.now t.now }
{
    let both = s.len().min(t.len());
    let near = both.min(8);
    for i in 0..near {
        let order = s[i].cmp(&t[i]);
        if order.is_ne() {
            return order;
        }
    }
    if near == both {
        return s.len().cmp(&t.len());
    }
    compare_behind(&s[near..], &t[near..])
}

// The name at an offset against a name, in the derived order. Built in, as `name_at` is: a name then stays in registers.
#[inline(always)]
pub fn compare_names(tape: &[u8], at: usize, name: Name<'_>) -> Ordering
    ensures { result ≡ compared_names (name_at tape.now at) (meant name.entry) }
{
    match (name_at(tape, at), name) {
        (Name::Id(m), Name::Id(n)) => m.cmp(&n),
        (Name::Id(_), Name::Text(_)) => Ordering::Less,
        (Name::Text(_), Name::Id(_)) => Ordering::Greater,
        (Name::Text(s), Name::Text(t)) => compare_texts(s, t),
    }
}

// By name; of equal names the later field comes first.
fn compare(tape: &[u8], a: Entry, b: Entry) -> Ordering
    ensures { result ≡ compared tape.now a b }
{
    let by_name = compare_names(tape, a.name, name_at(tape, b.name));
    if by_name.is_ne() {
        return by_name;
    }
    b.cmp(&a)
}

pub fn comes_before(tape: &[u8], a: Entry, b: Entry) -> bool
    ensures { result ≡ before tape.now a b }
{
    compare(tape, a, b).is_lt()
}
