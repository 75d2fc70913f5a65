// UTF-8, passed on from the crate `characters` to the crates above.
pub use characters::{char_len, is_ascii, is_scalar, valid_part, valid_utf8};
