// The program `vectors`: plays the generated vectors of conformance/ (crates/transcript).
#![tactic(auto)]

use std::io;

fn main(rt: HostRuntime) -> io::Result<()> {
    transcript::play_input(&rt)
}
