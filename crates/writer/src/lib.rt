// The streaming writers: a tape's text in the layouts 0 Compact, 1 Lines and 2 Pretty.
#![tactic(auto)]

pub mod value_writer;
pub mod whitespace_config;
pub mod writer;
