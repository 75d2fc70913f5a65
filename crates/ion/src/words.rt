// The words of the command line.
ghost use Rattle.std.specs.Prelude.{◌≡◌};
ghost use Rattle.ion.specs.Words.{command_of};

use text_rules::words::same_word;

#[derive(Clone, Copy, Debug, PartialEq, Eq)]
pub enum Word {
    Compact,
    Lines,
    Pretty,
    Tree,
    Length,
    Check,
    Show,
    Find,
    Read,
    Split,
    Convert,
    Help,
    Quoted,
}

pub fn word_of(s: &[u8]) -> Option<Word>
    ensures { result ≡ command_of s.now }
{
    if same_word(s, b"compact") {
        return Some(Word::Compact);
    }
    if same_word(s, b"lines") {
        return Some(Word::Lines);
    }
    if same_word(s, b"pretty") {
        return Some(Word::Pretty);
    }
    if same_word(s, b"tree") {
        return Some(Word::Tree);
    }
    if same_word(s, b"length") {
        return Some(Word::Length);
    }
    if same_word(s, b"check") {
        return Some(Word::Check);
    }
    if same_word(s, b"show") {
        return Some(Word::Show);
    }
    if same_word(s, b"find") {
        return Some(Word::Find);
    }
    if same_word(s, b"read") {
        return Some(Word::Read);
    }
    if same_word(s, b"split") {
        return Some(Word::Split);
    }
    if same_word(s, b"convert") {
        return Some(Word::Convert);
    }
    if same_word(s, b"help") {
        return Some(Word::Help);
    }
    if same_word(s, b"--quoted") {
        return Some(Word::Quoted);
    }
    None
}
