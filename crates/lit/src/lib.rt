// The lit detectors of a shot, each begun as a cluster of its own: docs/RULES.md, "Growth".
#![tactic(auto)]

ghost use Rattle.std.specs.Prelude.{◌<◌, [], ◌∷◌, take, length};
ghost use Rattle.cells.specs.Tables.{at_active, at_hot, at_known, at_lit, at_odd, at_seen, lits, knowns, odds, hots, defects, seen, active, SameFlags, SameStacks};
ghost use Rattle.lit.specs.Lit.{Lighting, LitBy, Lighted, Pushed};

use cells::{Flags, Stack};

// The detector k is lit, and an active cluster.
pub fn light_at(flags: &mut [Flags], k: usize)
    requires { k < length flags.old }
    ensures { Lighted flags.old k flags.new }
{
    flags[k].lit = true;
    flags[k].odd = true;
    flags[k].known = true;
    flags[k].hot = true;
}

// x is the active cluster i, and the detector i that is seen.
pub fn push(stacks: &mut [Stack], i: usize, x: u32)
    requires { i < length stacks.old }
    ensures { Pushed stacks.old i x stacks.new }
{
    stacks[i].active = x;
    stacks[i].seen = x;
}

// Each of the l lit detectors is an active cluster.
pub fn light(d: usize, flags: &mut [Flags], stacks: &mut [Stack], l: usize)
    requires lighting { Lighting d (defects stacks.old) l (lits flags.old) (odds flags.old) (knowns flags.old) (hots flags.old) (active stacks.old) (seen stacks.old) }
    ensures { LitBy (take l (defects stacks.old)) l (lits flags.old) (odds flags.old) (knowns flags.old) (hots flags.old) (lits flags.new) (odds flags.new) (knowns flags.new) (hots flags.new) (active stacks.new) (seen stacks.new)
        × SameFlags (at_lit ∷ at_known ∷ at_odd ∷ at_hot ∷ []) flags.old flags.new × SameStacks (at_seen ∷ at_active ∷ []) stacks.old stacks.new }
{
    for i in 0..l {
        let x = stacks[i].defect;
        light_at(flags, x as usize);
        push(stacks, i, x);
    }
}
