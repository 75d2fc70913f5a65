// Numbers of six bits and bytes, and base64's characters: eight at once. The first byte of a word is its lowest.
ghost use Rattle.std.specs.Prelude.{◌≡◌};
ghost use Rattle.output.specs.Wrote.{le_bytes};
ghost use Rattle.lanes.specs.Lanes.{Lane, every, unmarked_by};
ghost use Rattle.lanes.specs.Sextets.{sextets, octets, value_lane, no_base64};

// The eight numbers of six bits in the six lowest bytes of x. Both groups of three bytes at once, in halves of the word: masks of both halves are one
// operation to the compiler, which sums of remainders are not.
pub fn spread(x: u64) -> u64
    ensures { le_bytes 8 result ≡ sextets (le_bytes 6 x) }
{
    let y = (x & 0xFFFFFF) + (x & 0xFFFFFF000000) * 256;
    (y & 0x000000FC000000FC) / 4
        + (y & 0x0000000300000003) * 4096
        + (y & 0x0000F0000000F000) / 16
        + (y & 0x00000F0000000F00) * 1024
        + (y & 0x00C0000000C00000) / 64
        + (y & 0x003F0000003F0000) * 256
}

// The six bytes of eight numbers of six bits, in the same way.
pub fn gather(v: u64) -> u64
    ensures { le_bytes 6 result ≡ octets (le_bytes 8 v) }
{
    let w = (v & 0x0000003F0000003F) * 4
        + (v & 0x0000300000003000) / 4096
        + (v & 0x00000F0000000F00) * 16
        + (v & 0x003C0000003C0000) / 1024
        + (v & 0x0003000000030000) * 64
        + (v & 0x3F0000003F000000) / 256;
    (w & 0xFFFFFF) + (w & 0x00FFFFFF00000000) / 256
}

// The numbers whose characters the bytes are.
pub fn values(x: u64) -> u64
    ensures { Lane value_lane x result }
{
    let z = x & 0x7F7F7F7F7F7F7F7F;
    let a = (z + 0x5555555555555555 & 0x8080808080808080) / 128;
    let b = (z + 0x5151515151515151 & 0x8080808080808080) / 128;
    let c = (z + 0x5050505050505050 & 0x8080808080808080) / 128;
    let d = (z + 0x3F3F3F3F3F3F3F3F & 0x8080808080808080) / 128;
    let e = (z + 0x1F1F1F1F1F1F1F1F & 0x8080808080808080) / 128;
    z + a * 19 - (b * 3 + c * 12 + d * 69 + e * 6)
}

// The eight bytes are characters of base64.
pub fn is_base64(x: u64) -> bool
    ensures { result ≡ every (unmarked_by no_base64) (le_bytes 8 x) }
{
    let z = x & 0x7F7F7F7F7F7F7F7F;
    let m = (z + 0x3F3F3F3F3F3F3F3F) & !(z + 0x2525252525252525)
        | (z + 0x1F1F1F1F1F1F1F1F) & !(z + 0x0505050505050505)
        | (z + 0x5050505050505050) & !(z + 0x4646464646464646)
        | !((z ^ 0x2B2B2B2B2B2B2B2B) + 0x7F7F7F7F7F7F7F7F)
        | !((z ^ 0x2F2F2F2F2F2F2F2F) + 0x7F7F7F7F7F7F7F7F);
    (!m | x) & 0x8080808080808080 == 0
}
