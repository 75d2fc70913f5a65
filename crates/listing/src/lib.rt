// A list of tapes and texts, as the programs `vectors` and `examples` replay it (crates/vectors/README.md has its format): its spellings, the
// comparison of answers and buffers, and what is printed.
#![tactic(auto)]

pub mod compare;
pub mod decode;
pub mod report;
