// The scratch slices of the decoder by their lengths, a slice for each table: docs/SCRATCH.md.
#![tactic(auto)]

ghost use Rattle.std.specs.Prelude.{◌≡◌, ◌≤◌};
ghost use Rattle.codes.specs.Limits.{max_detectors, max_mechanisms};
ghost use Rattle.scratch.specs.Scratch.{lengths_for, lengths_in, scratch_long};
ghost use Rattle.scratch.specs.Laws.{each};

use adjacency::Neighbor;
use cells::Tables;

#[repr(C)]
#[derive(Clone, Copy, Default)]
pub struct Lengths {
    pub adj_offsets: usize,
    pub adj: usize,
    pub tree: usize,
    pub flags: usize,
    pub stacks: usize,
    pub links: usize,
    pub growth: usize,
    pub sat: usize,
}

// The slices themselves, each lent for writing: any contents, and any are left.
#[derive(Drop)]
pub struct Scratch<'a> {
    pub adj_offsets: &'a mut [u32],
    pub adj: &'a mut [Neighbor],
    pub tables: Tables<'a>,
}

impl Scratch<'_> {
    // How long they are.
    pub fn lengths(&self) -> Lengths
        ensures { result ≡ lengths_in self.now }
    {
        Lengths {
            adj_offsets: self.adj_offsets.len(),
            adj: self.adj.len(),
            tree: self.tables.tree.len(),
            flags: self.tables.flags.len(),
            stacks: self.tables.stacks.len(),
            links: self.tables.links.len(),
            growth: self.tables.growth.len(),
            sat: self.tables.sat.len(),
        }
    }
}

// The least lengths, for counts within the limits.
#[tactic(auto, unfolding(crate::specs::Scratch::lengths_for))]
pub fn least_lengths(detectors: usize, edges: usize) -> Lengths
    requires { (detectors ≤ max_detectors) × (edges ≤ max_mechanisms) }
    ensures { result ≡ lengths_for detectors edges }
{
    Lengths {
        adj_offsets: detectors + 1,
        adj: 2 * edges,
        tree: detectors,
        flags: detectors,
        stacks: detectors,
        links: edges + 1,
        growth: edges,
        sat: edges,
    }
}

// No entry in any slice.
pub fn no_lengths() -> Lengths
    ensures { result ≡ each 0 }
{
    Lengths::default()
}

// Whether each slice has what the counts need, whatever they are: no product or sum of them is made.
#[tactic(auto, unfolding(crate::specs::Scratch::scratch_long, crate::specs::Scratch::covers, crate::specs::Scratch::lengths_for))]
pub fn long(detectors: usize, edges: usize, have: Lengths) -> bool
    ensures { result ≡ scratch_long detectors edges have }
{
    detectors < have.adj_offsets
        && edges <= have.adj / 2
        && detectors <= have.tree
        && detectors <= have.flags
        && detectors <= have.stacks
        && edges < have.links
        && edges <= have.growth
        && edges <= have.sat
}
