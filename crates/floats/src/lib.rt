// Floats as text, written and read.
#![tactic(auto)]

pub mod bits;
pub mod float;
pub mod whole;
