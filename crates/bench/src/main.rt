// docs/RULES.md, "Frames", program `bench`: standard input holds frames, standard output gets the answers.
#![tactic(auto)]

use std::io;

fn main(rt: HostRuntime) -> io::Result<()> {
    standard_input::answer(&rt)
}
