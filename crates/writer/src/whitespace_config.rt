// What stands between values, by layout: 0 Compact, 1 Lines, 2 Pretty. The byte strings of `WhitespaceConfig`; a separator is chosen once a body.
ghost use Rattle.std.specs.Prelude.{◌≡◌, ◌++◌, ◌≤◌, eqb};
ghost use Rattle.output.specs.Logic.{if, byte};
ghost use Rattle.output.specs.Wrote.{Wrote, limit};
ghost use Rattle.writer.specs.Steps.{separating};
ghost use Rattle.writer.specs.Text.{separator, broken, blanks, deeper, opening, closing};

use tape::Frame;

// What follows a value: `second` alone, or a comma and `second`.
#[derive(Clone, Copy)]
pub struct Separator {
    pub second: u8,
    pub pair: bool,
}

// The space between nested values: a blank, or a line's end in Pretty.
fn space_between_nested_values(layout: u32) -> u8
    ensures { result ≡ if (eqb layout 2) (byte "\n") (byte " ") }
{
    if layout == 2 { b'\n' } else { b' ' }
}

// The space between top-level values: a blank in Compact, else a line's end.
fn space_between_top_level_values(layout: u32) -> u8
    ensures { result ≡ if (eqb layout 0) (byte " ") (byte "\n") }
{
    if layout == 0 { b' ' } else { b'\n' }
}

// What follows a value in a frame.
pub fn separator_of(layout: u32, frame: Frame) -> Separator
    ensures { separating result ≡ separator layout frame }
{
    match frame {
        Frame::Top => Separator {
            second: space_between_top_level_values(layout),
            pair: false,
        },
        Frame::List => Separator {
            second: space_between_nested_values(layout),
            pair: true,
        },
        Frame::Sexp => Separator {
            second: space_between_nested_values(layout),
            pair: false,
        },
        Frame::Struct => Separator {
            second: space_between_nested_values(layout),
            pair: true,
        },
    }
}

pub fn write_separator(buf: &mut [u8], pos: usize, s: Separator) -> usize
    ensures { Wrote buf.old buf.new pos result (separating s) }
{
    if s.pair {
        return output::put_two(buf, pos, b',', s.second);
    }
    output::put(buf, pos, s.second)
}

// The blanks before a child, which mostly are none. `put_repeated` has two callers, here and in `write_close`, so that it is not built into
// the walk.
pub fn write_blanks(buf: &mut [u8], pos: usize, width: usize) -> usize
    requires { pos ≤ limit }
    ensures { Wrote buf.old buf.new pos result (blanks width) }
{
    if width == 0 {
        return pos;
    }
    output::put_repeated(buf, pos, b' ', width)
}

// How many blanks stand before a child of a container that has `width` before itself.
pub fn indentation(layout: u32, width: usize) -> usize
    requires { width ≤ 256 }
    ensures { result ≡ deeper layout width }
{
    if layout == 2 { width + 2 } else { 0 }
}

// An opening bracket. The top level has none.
pub fn write_opening(buf: &mut [u8], pos: usize, frame: Frame) -> usize
    ensures { Wrote buf.old buf.new pos result (opening frame) }
{
    match frame {
        Frame::Top => output::bounded(pos),
        Frame::List => output::put(buf, pos, b'['),
        Frame::Sexp => output::put(buf, pos, b'('),
        Frame::Struct => output::put(buf, pos, b'{'),
    }
}

// An opening bracket, and the line's end behind it in Pretty.
pub fn write_start(buf: &mut [u8], pos: usize, layout: u32, frame: Frame) -> usize
    ensures { Wrote buf.old buf.new pos result (opening frame ++ broken layout) }
{
    let p = write_opening(buf, pos, frame);
    if layout == 2 {
        return output::put(buf, p, b'\n');
    }
    p
}

// A closing bracket. Not one with `write_opening`: the brackets are others, and so is the definition.
pub fn write_end(buf: &mut [u8], pos: usize, frame: Frame) -> usize
    ensures { Wrote buf.old buf.new pos result (closing frame) }
{
    match frame {
        Frame::Top => output::bounded(pos),
        Frame::List => output::put(buf, pos, b']'),
        Frame::Sexp => output::put(buf, pos, b')'),
        Frame::Struct => output::put(buf, pos, b'}'),
    }
}
