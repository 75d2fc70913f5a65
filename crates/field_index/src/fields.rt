// A struct node by its offset, and its fields one after the other.
ghost use Rattle.std.specs.Prelude.{◌≡◌, ◌<◌, ◌≤◌, false, eqb};
ghost use Rattle.output.specs.Logic.{if};
ghost use Rattle.tape.specs.Tree.{size};
ghost use Rattle.tape.specs.Verdict.{verdict};
ghost use Rattle.field_index.specs.Index.{number};
ghost use Rattle.field_index.specs.IndexSteps.{children_in, Located, Body, entry_of, next_of, Opens};

use crate::{Entry, Refusal};
use tape::Frame;

// The node at a place, whose kind byte is k, is the struct at the offset.
fn is_sought(k: u8, place: usize, at: usize) -> bool
    ensures { result ≡ if (eqb k 12) (eqb place at) false }
{
    k == 12 && place == at
}

// Where the struct node ends whose kind byte stands at an offset, if one does. A value that ends before the offset is passed, any other is
// opened.
fn struct_end(tape: &[u8], at: usize) -> Option<usize>
    requires { verdict tape.now ≡ 0 }
    ensures { Located tape.now at result }
{
    let mut from = 0;
    let mut end = tape.len() - 8;
    let mut frame = Frame::Top;
    // a walk: its step is a node's length
    while from < end {
        let inner = tape::value_place(tape, from, end, frame);
        let next = inner + tape::value_size(tape, inner, end);
        if next <= at {
            from = next;
        } else {
            let k = tape[inner];
            if k < 10 {
                return None;
            }
            if 12 < k {
                return None;
            }
            if is_sought(k, inner, at) {
                return Some(next);
            }
            from = inner + 5;
            end = next;
            frame = tape::check::frame_of(k);
        }
    }
    None
}

// The number of the fields in a body.
fn field_count(tape: &[u8], from: usize, end: usize) -> usize
    requires { Body tape.now from end }
    ensures { result ≡ size (children_in tape.now from end) }
{
    let mut at = from;
    let mut n = 0;
    // a walk: its step is a node's length
    while at < end {
        let inner = tape::value_place(tape, at, end, Frame::Struct);
        at = inner + tape::value_size(tape, inner, end);
        n += 1;
    }
    n
}

// The fields of a struct: so many, from a place to a place.
#[derive(Clone, Copy)]
pub struct Fields {
    pub from: usize,
    pub end: usize,
    pub count: usize,
}

// The struct at an offset, with room for its fields among m entries.
pub fn opened(tape: &[u8], at: usize, m: usize) -> Result<Fields, Refusal>
    ensures { Opens tape.now at m result }
{
    tape::check::check_tape(tape)?;
    let Some(end) = struct_end(tape, at) else {
        return Err(Refusal::NoStruct);
    };
    let from = at + 5;
    let count = field_count(tape, from, end);
    if m < count {
        return Err(Refusal::TooManyFields);
    }
    Ok(Fields { from, end, count })
}

// The field at a place of a body, and where the next stands.
pub fn read_field(tape: &[u8], at: usize, end: usize) -> (Entry, usize)
    requires { Body tape.now at end × (at < end) }
    ensures { result ≡ (entry_of tape.now at end, next_of tape.now at end) }
{
    let value = at + tape::value_size(tape, at, end);
    let inner = tape::value_place(tape, at, end, Frame::Struct);
    let next = inner + tape::value_size(tape, inner, end);
    (Entry { name: at, value }, next)
}
