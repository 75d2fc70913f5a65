// The length of an int's text.
ghost use Rattle.std.specs.Prelude.{◌≡◌, ◌≤◌, length};
ghost use Rattle.numbers.specs.Decimal.{int_text};

pub fn integer_length(n: i64) -> usize
    ensures { (result ≡ length (int_text n)) × (result ≤ 21) }
{
    let c = text_rules::digits::digit_count(numbers::int::size(n));
    if n < 0 {
        return c + 1;
    }
    c
}
