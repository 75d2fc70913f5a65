// Eight digits in one word, as numbers: a byte each, the first lowest. Many at once, by products and remainders that the prover's arithmetic reads.
ghost use Rattle.std.specs.Prelude.{◌<◌, ◌≡◌};
ghost use Rattle.lanes.specs.DigitLanes.{PairLanes, Split, word_of};

// The eight digits, as numbers, of four numbers below 100 in lanes of sixteen bits: all four by ten with one product, as
// x * 103 / 1024 is x / 10.
pub fn pair_digits(h: u64) -> u64
    requires { PairLanes h }
    ensures { Split h result }
{
    let u = h * 103 / 1024;
    let tens = u % 64
        + u / 65536 % 64 * 65536
        + u / 4294967296 % 64 * 4294967296
        + u / 281474976710656 * 281474976710656;
    tens + (h - 10 * tens) * 256
}

// The eight digits of x, as numbers: both halves by a hundred with one product, as y * 10486 / 1048576 is y / 100.
pub fn word8(x: u64) -> u64
    requires { x < 100000000 }
    ensures { (result ≡ word_of x) × (result < 720575940379279360) }
{
    let hi = x / 10000;
    let lo = x % 10000;
    let m = hi + 4294967296 * lo;
    let v = m * 10486 / 1048576;
    let top = v / 4294967296 * 4294967296 + v % 4096;
    pair_digits((m - 100 * top) * 65536 + top)
}
