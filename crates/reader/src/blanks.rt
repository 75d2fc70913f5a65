// Between tokens: blanks, brackets, commas and colons.
ghost use Rattle.std.specs.Prelude.{◌≡◌, [], ◌∷◌, ◌≤◌, length, drop};
ghost use Rattle.text_rules.specs.Texts.{blank, strip};
ghost use Rattle.tape.specs.Tree.{tag};
ghost use Rattle.tape.specs.declared.Frame.TheVariants.{Top, Sexp};
ghost use Rattle.reader.specs.Grammar.{skip, closes, comma, gap, opens};
ghost use Rattle.text_rules.specs.Reading.{found};
ghost use Rattle.reader.specs.Steps.{Skipped, Reaches};

use tape::Frame;
use text_rules::texts::stands;

// Space, tab, LF, 11, 12, CR.
#[tactic(auto, using(std::proofs::lemmas::Bool::Decides::nat_tests), unfolding(text_rules::specs::Texts::blank))]
fn is_blank(b: u8) -> bool
    ensures { result ≡ blank b }
{
    // asked for first, as most bytes are past the space: with the pattern alone reading takes 2 % more instructions
    if b' ' < b {
        return false;
    }
    matches!(b, b' ' | 9..=13)
}

// The first place at or after `from` that holds no blank.
pub fn skip_blanks(text: &[u8], from: usize) -> usize
    requires { from ≤ length text.now }
    ensures { Skipped text.now from result }
{
    // A `for` here gives 6 % more taken branches in reading: its end is another value than the place where it stops.
    let mut i = from;
    while i < text.len() {
        if !is_blank(text[i]) {
            return i;
        }
        i += 1;
    }
    i
}

// The place behind the byte b, if it stands at `at`.
pub fn mark_at(text: &[u8], at: usize, b: u8) -> Option<usize>
    requires { at ≤ length text.now }
    ensures { Reaches text.now at (strip (b ∷ []) (drop at text.now)) result }
{
    if stands(text, at, b) {
        Some(at + 1)
    } else {
        None
    }
}

// The place behind the end of a sequence in `frame`, if it stands at `at`.
pub fn close_at(text: &[u8], at: usize, frame: Frame) -> Option<usize>
    requires { at ≤ length text.now }
    ensures { Reaches text.now at (closes frame (drop at text.now)) result }
{
    match frame {
        Frame::Top => { if at == text.len() { Some(at) } else { None } }
        Frame::List => mark_at(text, at, b']'),
        Frame::Sexp => mark_at(text, at, b')'),
        Frame::Struct => mark_at(text, at, b'}'),
    }
}

// The place behind the comma, or at the end mark e, that stands at `at` behind blanks.
fn comma_at(text: &[u8], at: usize, e: u8) -> Option<usize>
    requires { at ≤ length text.now }
    ensures { Reaches text.now at (comma e (skip (drop at text.now))) result }
{
    let a = skip_blanks(text, at);
    if stands(text, a, b',') {
        return Some(a + 1);
    }
    if stands(text, a, e) {
        return Some(a);
    }
    None
}

// A blank, or the end of a sexp, at `at`.
fn sexp_gap_at(text: &[u8], at: usize) -> Option<usize>
    requires { at ≤ length text.now }
    ensures { Reaches text.now at (gap Sexp (drop at text.now)) result }
{
    if at == text.len() {
        return None;
    }
    match text[at] {
        b')' => Some(at),
        b => { if is_blank(b) { Some(at) } else { None } }
    }
}

// A blank, or the end of the text, at `at`.
fn top_gap_at(text: &[u8], at: usize) -> Option<usize>
    requires { at ≤ length text.now }
    ensures { Reaches text.now at (gap Top (drop at text.now)) result }
{
    if at == text.len() || is_blank(text[at]) {
        return Some(at);
    }
    None
}

// The place at which a sequence goes on behind a child that ends at `at`, if it may.
pub fn gap_at(text: &[u8], at: usize, frame: Frame) -> Option<usize>
    requires { at ≤ length text.now }
    ensures { Reaches text.now at (gap frame (drop at text.now)) result }
{
    match frame {
        Frame::Top => top_gap_at(text, at),
        Frame::List => comma_at(text, at, b']'),
        Frame::Sexp => sexp_gap_at(text, at),
        Frame::Struct => comma_at(text, at, b'}'),
    }
}

// The frame that a bracket at `at` opens; `{{` opens none.
pub fn opener_at(text: &[u8], at: usize) -> Option<Frame>
    requires { at ≤ length text.now }
    ensures { found result ≡ opens (drop at text.now) }
{
    if at == text.len() {
        return None;
    }
    match text[at] {
        b'[' => Some(Frame::List),
        b'(' => Some(Frame::Sexp),
        b'{' if !stands(text, at + 1, b'{') => Some(Frame::Struct),
        _ => None,
    }
}

// The kind byte of a container.
pub fn tag_of(frame: Frame) -> u8
    ensures { result ≡ tag frame }
{
    match frame {
        Frame::Top => 0,
        Frame::List => 10,
        Frame::Sexp => 11,
        Frame::Struct => 12,
    }
}
