// Ints, decimals and timestamps as text, written and read.
#![tactic(auto)]

pub mod decimal;
pub mod int;
pub mod numeral;
pub mod timestamp;
