// The program `replay`: plays the cases of its standard input (crates/transcript).
#![tactic(auto)]

use std::io;

fn main(rt: HostRuntime) -> io::Result<()> {
    transcript::play_input(&rt)
}
