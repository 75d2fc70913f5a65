// What the program `ion` prints: parts of lines, and the nodes of a tape.
#![tactic(auto)]

pub mod line;
pub mod show;
