// The text rules, under both writers and the reader. Each rule has its text, written at a position of a lent buffer, and its reader, from
// a place of a text.
#![tactic(auto)]

pub mod blobs;
pub mod clobs;
pub mod digits;
pub mod escapes;
pub mod short_words;
pub mod text_formatter;
pub mod texts;
pub mod utf8;
pub mod words;
