// The length of a timestamp's text, by its precision and the digits of its fraction.
ghost use Rattle.std.specs.Prelude.{◌≡◌, length};
ghost use Rattle.numbers.specs.Timestamp.{timestamp_text};

use numbers::timestamp::Timestamp;

pub fn timestamp_length(x: Timestamp) -> usize
    ensures { result ≡ length (timestamp_text x) }
{
    let p = x.precision as usize;
    if 3 < p {
        if x.digits == 0 {
            return 25;
        }
        return 26 + x.digits as usize;
    }
    if 2 < p {
        return 22;
    }
    5 + 3 * p
}
