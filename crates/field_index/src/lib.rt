// The field index: the fields of a struct node as entries in a lent slice, sorted by name, and lookup in it.
#![tactic(auto)]

mod fields;
mod heapsort;
mod names;
mod search;

ghost use Rattle.std.specs.Prelude.{◌≡◌};
ghost use Rattle.text_rules.specs.Text.{Sym};
ghost use Rattle.tape.specs.Answer.{fault_number};
ghost use Rattle.field_index.specs.Names.{before};
ghost use Rattle.field_index.specs.NameSteps.{meant};
ghost use Rattle.field_index.specs.Sorted.{sorted};
ghost use Rattle.field_index.specs.Index.{number, IndexOf};
ghost use Rattle.field_index.specs.Lookup.{Finds, looked, looked_up};

pub use names::Name;
use tape::answer::Fault;

// A field: the offsets of its name and of its value, from the tape's start, of their kind bytes. The derived order is that of the places.
#[repr(C)]
#[derive(Clone, Copy, PartialEq, Eq, PartialOrd, Ord)]
pub struct Entry {
    pub name: usize,
    pub value: usize,
}

// Why there is no index, by the documents' numbers.
#[derive(Clone, Copy, Debug, PartialEq, Eq)]
pub enum Refusal {
    // tape under 8 or over 1,048,576 bytes, or body length plus 8 not its length
    Misfit = 1,
    // node outside the layout, or wrong top-level count
    BadNode = 2,
    // a container opened while 64 are open
    TooDeep = 3,
    // a finite float that is no whole number of magnitude up to 2^53
    FiniteFloat = 4,
    // no struct node has its kind byte at the offset
    NoStruct = 11,
    // the fields outnumber the entries
    TooManyFields = 12,
}

impl From<Fault> for Refusal {
    ghost from_gives = { λ fault refusal. number refusal ≡ fault_number fault };

    fn from(fault: Fault) -> Refusal {
        match fault {
            Fault::Misfit => Refusal::Misfit,
            Fault::BadNode => Refusal::BadNode,
            Fault::TooDeep => Refusal::TooDeep,
            Fault::FiniteFloat => Refusal::FiniteFloat,
        }
    }
}

impl From<Refusal> for u8 {
    ghost from_gives = { λ r n. n ≡ number r };

    fn from(refusal: Refusal) -> u8 {
        refusal as u8
    }
}

// The entries in order.
fn sort(tape: &[u8], entries: &mut [Entry])
    ensures { entries.new ≡ sorted (before tape.now) entries.old }
{
    let mut h = heapsort::start(entries.len());
    // turn by turn: how many there are shows only at the end; `heapsorted-is` bounds them, as no sort of std's does
    while 1 < h.hi {
        let t = heapsort::turned(tape, h, entries[h.at], entries[h.left], entries[h.right]);
        entries[h.at] = t.first;
        entries[t.to] = t.second;
        h = t.next;
    }
}

// The index of the struct node whose kind byte stands at an offset: its fields in the first entries, sorted by name, and their number. A
// refusal leaves the entries as they are.
pub fn index(tape: &[u8], at: usize, entries: &mut [Entry]) -> Result<usize, Refusal>
    ensures { IndexOf tape.now at entries.old entries.new result }
{
    let f = fields::opened(tape, at, entries.len())?;
    let mut from = f.from;
    for k in 0..f.count {
        let (entry, next) = fields::read_field(tape, from, f.end);
        entries[k] = entry;
        from = next;
    }
    sort(tape, &mut entries[..f.count]);
    Ok(f.count)
}

// The place of the first entry with a name.
fn find<'a>(tape: &'a [u8], entries: &[Entry], name: Name<'a>) -> Option<usize>
    ensures { Finds tape.now (meant name.entry) entries.now result }
{
    let mut r = search::all(entries.len());
    // turn by turn: how many there are shows only at the end; `searched-is` bounds them, as no search of std's does
    while r.lo < r.hi {
        r = search::narrow(tape, name, entries[r.mid], r);
    }
    search::place(r)
}

// The place of the first entry whose name is the given text, none exactly if no field has it, in an index of `index` on the same tape; in any
// other entries none, or some place.
pub fn find_text<'a>(tape: &'a [u8], entries: &[Entry], name: &'a [u8]) -> Option<usize>
    ensures { Finds tape.now (Sym.text name.now) entries.now result }
{
    find(tape, entries, Name::Text(name))
}

// The same for an identifier.
pub fn find_id(tape: &[u8], entries: &[Entry], id: u32) -> Option<usize>
    ensures { Finds tape.now (Sym.id id) entries.now result }
{
    find(tape, entries, Name::Id(u64::from(id)))
}

// The latest field with a name of the struct node at an offset: indexed in 65,536 entries of its own, and looked up. It
// takes no slice of entries, so that code with a proof written by the tool can call it.
pub fn look_up<'a>(tape: &'a [u8], at: usize, name: Name<'a>) -> Result<Option<Entry>, Refusal>
    ensures { looked result ≡ looked_up tape.now at (meant name.entry) }
{
    let mut entries = [Entry { name: 0, value: 0 }; 65536];
    let n = index(tape, at, &mut entries[..])?;
    match find(tape, &entries[..n], name) {
        Some(place) => Ok(Some(entries[place])),
        None => Ok(None),
    }
}
