// Replays the published examples of Ion 1.0: each text with the tape that it means here, or refusal 8. tests/examples.py makes the list.
#![tactic(auto)]

use replay::Seen;
use std::io;

fn main(rt: HostRuntime) -> io::Result<()> {
    let mut seen = Seen::default();
    replay::list(&rt, &mut seen)?;
    Ok(())
}
