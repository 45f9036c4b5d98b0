// docs/RULES.md, "Growth", step 1: the first active cluster with no edge to grow.
#![tactic(auto)]

ghost use Rattle.std.specs.Prelude.{◌≡◌, take};
ghost use Rattle.first_stuck.specs.FirstStuck.{Checking, first_shut};
ghost use Rattle.cells.specs.Tables.{frees, active};

use cells::{Flags, Stack};

// The first of the a active clusters that is not free.
pub fn stuck(stacks: &[Stack], a: usize, flags: &[Flags]) -> Option<u32>
    requires { Checking (active stacks.now) a (frees flags.now) }
    ensures { result ≡ first_shut (frees flags.now) (take a (active stacks.now)) }
{
    for stack in &stacks[..a] {
        let r = stack.active;
        let free = flags[r as usize].free;
        if !free {
            return Some(r);
        }
    }
    None
}
