// The lengths of what `floats::float` writes.
ghost use Rattle.std.specs.Prelude.{◌≡◌, not, T, length};
ghost use Rattle.std.specs.Float.{binary64};
ghost use Rattle.std.specs.Float.Ieee.{of_bits, is_nan};
ghost use Rattle.floats.specs.Float.{float_text};

// Of a float that is no NaN, by its bits.
fn bits_length(b: u64) -> usize
    requires { T (not (is_nan (of_bits binary64 b))) }
    ensures { result ≡ length (float_text (of_bits binary64 b)) }
{
    match floats::bits::magnitude_of(b) {
        Some(n) => {
            let w = floats::whole::whole_length(n);
            if b < 0x8000_0000_0000_0000 { w } else { 1 + w }
        }
        None => {
            if b % 0x8000_0000_0000_0000 == 0x7FF0_0000_0000_0000 {
                4
            } else {
                0
            }
        }
    }
}

pub fn float_length(x: f64) -> usize
    ensures { result ≡ length (float_text x) }
{
    if x != x {
        return 3;
    }
    bits_length(f64::to_bits(x))
}
