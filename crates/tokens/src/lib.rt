// Tokens of text, read from a place: quoted text, clobs and blobs, symbols, nulls and bools.
#![tactic(auto)]

pub mod blobs;
pub mod quoted;
pub mod values;
