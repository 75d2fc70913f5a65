// The length of a blob's text.
ghost use Rattle.std.specs.Prelude.{ℕ, ◌<◌, ◌^◌, ◌≡◌, List, length};
ghost use Rattle.text_rules.specs.Text.{blob_text};

// Of a blob of n bytes: four characters for each three bytes, begun ones included, and `{{` and `}}`.
pub fn blob_length(n: usize) -> usize
    requires { n < 2 ^ 32 }
    ensures { (s : List ℕ) → length s ≡ n → result ≡ length (blob_text s) }
{
    (n + 2) / 3 * 4 + 4
}
