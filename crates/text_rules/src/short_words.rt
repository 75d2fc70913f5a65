// Tests of a short text, told by a word that has its n bytes, eight at most, as its lowest. Each may say no too often, never yes too often,
// unless it says otherwise.
ghost use Rattle.std.specs.Prelude.{ℕ, ◌≤◌, ◌-◌, ◌*◌, ◌^◌, ◌≡◌, true, false};
ghost use Rattle.output.specs.Wrote.{le_bytes};
ghost use Rattle.text_rules.specs.Words.{is_keyword};
ghost use Rattle.text_rules.specs.Text.{symbol_text};

// The bits 6, 14 and 20: what the five lowest bits of `f`, `n` and `t` are.
const KEYWORD_STARTS: u64 = 0x104040;

// No keyword starts with the lowest byte.
fn starts_no_keyword(x: u64) -> bool
    ensures { result ≡ true → (n : ℕ) → is_keyword (le_bytes n x) ≡ false }
{
    (KEYWORD_STARTS >> (x % 32)) % 2 == 0
}

// The n lowest bytes are true, false, nan or null, no more and no less.
pub fn is_keyword_word(x: u64, n: usize) -> bool
    requires { (1 ≤ n) × (n ≤ 8) }
    ensures { result ≡ is_keyword (le_bytes n x) }
{
    if starts_no_keyword(x) {
        return false;
    }
    match n {
        3 => x % 0x1000000 == 0x6E616E,
        4 => {
            let y = x % 0x100000000;
            y == 0x65757274 || y == 0x6C6C756E
        }
        5 => x % 0x10000000000 == 0x65736C6166,
        _ => false,
    }
}

// The n lowest bytes are letters and `_`, and no keyword: as a symbol they stand bare, unless every symbol text is quoted.
pub fn is_plain(x: u64, n: usize) -> bool
    requires { (1 ≤ n) × (n ≤ 8) }
    ensures { result ≡ true → symbol_text false (le_bytes n x) ≡ le_bytes n x }
{
    lanes::is_letter_word(x, n) && !is_keyword_word(x, n)
}
