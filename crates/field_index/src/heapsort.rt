// Heapsort, a turn at a time: where a sort stands is a value, and a turn says what to store where. `crate::sort` has the loop. The steps stay by hand:
// `heapsorted-is` (proofs/TurnLaws.antt) bounds the turns of `turns` (specs/HeapSteps.antt), and std's sort promises no bound.
ghost use Rattle.std.specs.Prelude.{◌≡◌, ◌-◌, ◌<◌, ◌≤◌, ◌/◌};
ghost use Rattle.field_index.specs.Names.{before};
ghost use Rattle.field_index.specs.HeapSteps.{node_of, settled_of, sift_of, start_of, step_of, turn_of};

use crate::Entry;
use crate::names::comes_before;

// Where a sort stands: places lo to hi - 1 are a heap but for the entry at `at` (specs/HeapSteps.antt). `left` and `right` are its children, the
// left one twice where there is no second. `out`: the heap is whole, and its first entry goes to `left`, the last place.
#[derive(Clone, Copy)]
pub struct Heap {
    pub lo: usize,
    pub hi: usize,
    pub at: usize,
    pub left: usize,
    pub right: usize,
    pub out: bool,
}

// A turn of a sort: first goes to the place `at`, second to the place `to`.
#[derive(Clone, Copy)]
pub struct Turn {
    pub next: Heap,
    pub to: usize,
    pub first: Entry,
    pub second: Entry,
}

// The entry at a place that has a child is to go down.
fn node(lo: usize, hi: usize, at: usize) -> Heap
    requires { at < hi / 2 }
    ensures { result ≡ node_of lo hi at }
{
    let left = 2 * at + 1;
    let next = 2 * at + 2;
    if next < hi {
        Heap {
            lo,
            hi,
            at,
            left,
            right: next,
            out: false,
        }
    } else {
        Heap {
            lo,
            hi,
            at,
            left,
            right: left,
            out: false,
        }
    }
}

// The last of the first n places.
fn last(n: usize) -> usize
    ensures { result ≡ n - 1 }
{
    if 0 < n { n - 1 } else { 0 }
}

// The entry that went down stays: the place before lo is next, or the heap is whole.
fn settled(lo: usize, hi: usize) -> Heap
    requires { lo ≤ hi / 2 }
    ensures { result ≡ settled_of lo hi }
{
    if 0 < lo {
        node(lo - 1, hi, lo - 1)
    } else {
        let end = last(hi);
        Heap {
            lo: 0,
            hi,
            at: 0,
            left: end,
            right: end,
            out: true,
        }
    }
}

// It goes on down, unless it has no child.
fn sift(lo: usize, hi: usize, at: usize) -> Heap
    requires { lo ≤ hi / 2 }
    ensures { result ≡ sift_of lo hi at }
{
    if at < hi / 2 {
        node(lo, hi, at)
    } else {
        settled(lo, hi)
    }
}

// The places from n / 2 on have no child: the last parent is the first to go down.
pub fn start(n: usize) -> Heap
    ensures { result ≡ start_of n }
{
    settled(n / 2, n)
}

// x, and y, the later of its children, which stands at `to`.
fn step(tape: &[u8], h: Heap, to: usize, x: Entry, y: Entry) -> Turn
    requires { h.lo ≤ h.hi / 2 }
    ensures { result ≡ step_of (before tape.now) h to x y }
{
    if comes_before(tape, x, y) {
        Turn {
            next: sift(h.lo, h.hi, to),
            to,
            first: y,
            second: x,
        }
    } else {
        Turn {
            next: settled(h.lo, h.hi),
            to,
            first: x,
            second: y,
        }
    }
}

// One turn, on the entries at `at`, `left` and `right`.
pub fn turned(tape: &[u8], h: Heap, x: Entry, y: Entry, z: Entry) -> Turn
    requires { h.lo ≤ h.hi / 2 }
    ensures { result ≡ turn_of (before tape.now) h x y z }
{
    if h.out {
        let end = last(h.hi);
        Turn {
            next: sift(0, end, 0),
            to: h.left,
            first: y,
            second: x,
        }
    } else {
        if comes_before(tape, y, z) {
            step(tape, h, h.right, x, z)
        } else {
            step(tape, h, h.left, x, y)
        }
    }
}
