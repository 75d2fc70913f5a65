// Binary search, a turn at a time. `crate::find` has the loop. The steps stay by hand: `searched-is` (proofs/SearchLaws.antt) bounds the comparisons of
// `searched` (specs/SearchSteps.antt), and std's `partition_point` promises no bound.
ghost use Rattle.std.specs.Prelude.{◌≡◌, false, ◌<◌, ◌≤◌};
ghost use Rattle.field_index.specs.NameSteps.{meant};
ghost use Rattle.field_index.specs.Lookup.{sought};
ghost use Rattle.field_index.specs.SearchSteps.{range_of, narrowed_of, answer_of};

use crate::Entry;
use crate::names::{Name, compare_names};
use std::cmp::Ordering;

// What is left of a search, its middle, and whether the entry behind it has the name.
#[derive(Clone, Copy)]
pub struct Range {
    pub lo: usize,
    pub hi: usize,
    pub mid: usize,
    pub same: bool,
}

fn halved(lo: usize, hi: usize, same: bool) -> Range
    requires { lo ≤ hi }
    ensures { result ≡ range_of lo hi same }
{
    let mid = lo + (hi - lo) / 2;
    Range { lo, hi, mid, same }
}

// Nothing is known of n entries yet.
pub fn all(n: usize) -> Range
    ensures { result ≡ range_of 0 n false }
{
    halved(0, n, false)
}

// The entry in the middle is looked at.
pub fn narrow<'a>(tape: &'a [u8], name: Name<'a>, e: Entry, r: Range) -> Range
    requires { (r.lo ≤ r.mid) × (r.mid < r.hi) }
    ensures { result ≡ narrowed_of (sought tape.now (meant name.entry) e) r }
{
    match compare_names(tape, e.name, name) {
        Ordering::Less => halved(r.mid + 1, r.hi, r.same),
        Ordering::Equal => halved(r.lo, r.mid, true),
        Ordering::Greater => halved(r.lo, r.mid, false),
    }
}

// What the search answers once nothing is left.
pub fn place(r: Range) -> Option<usize>
    ensures { result ≡ answer_of r }
{
    if r.same { Some(r.lo) } else { None }
}
