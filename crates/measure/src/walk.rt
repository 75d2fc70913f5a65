// The walk that validates the nodes of a body, and of the bodies in it, and sums up the lengths of their texts. Four sums: the contents, the separators,
// those separators that stand behind the last child of a body, and what Pretty adds, its blanks and its LF behind opening brackets. Each text's length
// follows from them.
ghost use Rattle.std.specs.Prelude.{◌≡◌, ◌+◌, ◌*◌, ◌-◌, ◌≤◌, length, replicate, OnOk};
ghost use Rattle.tape.specs.Bytes.{part};
ghost use Rattle.tape.specs.Tape.{walk, nodes_of};
ghost use Rattle.tape.specs.Answer.{fault_of};
ghost use Rattle.tape.specs.Checked.{TapeChecks};
ghost use Rattle.tape.specs.declared.Frame.TheVariants.{Top};
ghost use Rattle.measure.specs.Sums.{separator_length, summed};
ghost use Rattle.measure.specs.Steps.{quotes_of, quoting, plus, body_own, met, SumsFit, Grown};

use crate::parts;
use tape::answer::Fault;
use tape::check::Checked;
use tape::{Frame, check};

// How long a separator is.
fn separator_length(frame: Frame) -> usize
    ensures { (result ≡ separator_length frame) × (1 ≤ result) × (result ≤ 2) }
{
    match frame {
        Frame::Top | Frame::Sexp => 1,
        Frame::List | Frame::Struct => 2,
    }
}

// Adds up what a body has of its own, behind its last child: n bytes of contents, and `count` children with `width` blanks before each.
fn add_body(sums: &mut [usize; 4], n: usize, count: usize, frame: Frame, width: usize)
    requires sums_len { length sums.old ≡ 4 }
    requires sums_fit { SumsFit (plus sums.old (body_own n count frame width)) }
    ensures { sums.new ≡ plus sums.old (body_own n count frame width) }
{
    let g = separator_length(frame);
    sums[0] = sums[0] + n;
    sums[1] = sums[1] + count * g;
    if 0 < count {
        sums[2] = sums[2] + g;
    }
    sums[3] = sums[3] + count * width;
}

// The first problem among the nodes of a body, if there is one, as `tape::check` has it. Without a problem, `sums` has their lengths added; of `seen` the first
// number is set to 1 if there are annotations, the second if there is an identifier but 0, and the third to how many nodes stand side by side in this body.
// A body is opened while `depth` more may be; at top level that is 65, so that in Pretty the children have 130 - 2 * depth blanks before them. `quotes` is
// the setting, as in `text_formatter`.
fn measure_nodes(
    tape: &[u8],
    from: usize,
    end: usize,
    frame: Frame,
    depth: usize,
    sums: &mut [usize; 4],
    seen: &mut [usize; 3],
    quotes: usize,
) -> Result<(), Fault>
    requires from_le_end { from ≤ end }
    requires end_in_bounds { end + 8 ≤ length tape.now }
    requires tape_len_bound { length tape.now ≤ 1048576 }
    requires depth_bound { depth ≤ 65 }
    requires sums_len { length sums.old ≡ 4 }
    requires seen_len { length seen.old ≡ 3 }
    requires quotes_value { quotes ≡ quotes_of (quoting quotes) }
    requires grown_2 { Grown from (replicate 4 0) sums.old }
    ensures fault { fault_of result ≡ (walk depth frame (part tape.now from end)).1 }
    ensures sums { OnOk result (sums.new ≡ plus sums.old (summed (quoting quotes) frame (130 - 2 * depth) (walk depth frame (part tape.now from end)).0)) }
    ensures seen { OnOk result (seen.new ≡ met seen.old (walk depth frame (part tape.now from end)).0) }
    ensures grown { OnOk result (Grown (end - from) sums.old sums.new) }
{
    if depth == 0 {
        return Err(Fault::TooDeep);
    }
    let width = 130 - 2 * depth;
    let mut at = from;
    let mut n: usize = 0;
    let mut count: usize = 0;
    // A walk: the step is the node's size.
    while at < end {
        let q = check::behind_name(tape, at, end, frame);
        if q == end {
            return Err(Fault::BadNode);
        }
        n = n + parts::field_name_length(tape, at, end, frame, quotes);
        if check::name_number(tape, at, end, frame) {
            seen[1] = 1;
        }
        let mut p = q;
        if tape[q] == 13 {
            let Some(notes) = parts::notes_at(tape, q, end, quotes) else {
                return Err(Fault::BadNode);
            };
            if notes.end == end {
                return Err(Fault::BadNode);
            }
            n += notes.length;
            seen[0] = 1;
            if notes.numbered {
                seen[1] = 1;
            }
            p = notes.end;
        }
        count += 1;
        let k = tape[p];
        if k < 9 {
            let l = parts::leaf_at(tape, p, end, quotes);
            if l.size < 2 {
                return Err(check::size_fault(l.size));
            }
            n = n + l.length;
            if l.length == 0 {
                n = n + parts::untold_length(tape, p, end, quotes);
            }
            if check::is_number(tape, p, end) {
                seen[1] = 1;
            }
            at = p + l.size;
        } else {
            if k < 13 {
                let size = check::span(tape, p, end);
                if size == 0 {
                    return Err(Fault::BadNode);
                }
                if k == 9 {
                    n = n + parts::untold_length(tape, p, end, quotes);
                } else {
                    match measure_nodes(
                        tape,
                        p + 5,
                        p + size,
                        check::frame_of(k),
                        depth - 1,
                        sums,
                        seen,
                        quotes,
                    ) {
                        Ok(_) => {}
                        Err(fault) => return Err(fault),
                    }
                    n = n + 2;
                    sums[3] = sums[3] + (width + 1);
                }
                at = p + size;
            } else {
                if k == 15 {
                    let size = check::span(tape, p, end);
                    if size == 0 {
                        return Err(Fault::BadNode);
                    }
                    n = n + crate::blobs::blob_length(size - 5);
                    at = p + size;
                } else {
                    if k != 14 {
                        return Err(Fault::BadNode);
                    }
                    if check::is_free(tape, at, end, frame) {
                        n = n + 8;
                        at = p + 1;
                    } else {
                        return Err(Fault::BadNode);
                    }
                }
            }
        }
    }
    add_body(sums, n, count, frame, width);
    seen[2] = count;
    Ok(())
}

// What `tape::check::check_tape` says of a tape, and the four sums of its nodes under a setting.
pub fn measure_tape(quoted: bool, tape: &[u8], sums: &mut [usize; 4]) -> Result<Checked, Fault>
    requires { sums.old ≡ replicate 4 0 }
    ensures checked { TapeChecks tape.now result }
    ensures sums { OnOk result (sums.new ≡ summed quoted Top 0 (nodes_of tape.now)) }
{
    let end = check::body_end(tape)?;
    let mut seen = [0usize; 3];
    let quotes = crate::text_formatter::quotes_of(quoted);
    measure_nodes(tape, 0, end, Frame::Top, 65, sums, &mut seen, quotes)?;
    if tape::u32_at(tape, end + 4) as usize != seen[2] {
        return Err(Fault::BadNode);
    }
    Ok(Checked {
        count: seen[2],
        noted: seen[0] == 1,
        numbered: seen[1] == 1,
    })
}
