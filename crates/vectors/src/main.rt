// Replays tapes with the texts that the Rust gives for them, or the refusals of document 01. tests/vectors.py makes the list. What it shares with
// `examples`, which differs in its list, is `replay::list`; a program has a `main` of its own.
#![tactic(auto)]

use replay::Seen;
use std::io;

fn main(rt: HostRuntime) -> io::Result<()> {
    let mut seen = Seen::default();
    replay::list(&rt, &mut seen)?;
    Ok(())
}
