// Small questions about a text.
ghost use Rattle.std.specs.Prelude.{◌≤◌, length};
ghost use Rattle.text_rules.specs.Reading.{Stands};

// The byte b stands at a place.
#[tactic(auto, unfolding(crate::specs::Texts::starts))]
pub fn stands(text: &[u8], at: usize, b: u8) -> bool
    requires { at ≤ length text.now }
    ensures { Stands text.now at b result }
{
    at < text.len() && text[at] == b
}
