// docs/RULES.md, "Growth", step 1: the live detectors listed, and their open edges counted.
#![tactic(auto)]

ghost use Rattle.std.specs.Prelude.{◌+◌, ◌<◌, ◌≡◌, true, false, cond, length, eqb, [], ◌∷◌};
ghost use Rattle.counting.specs.Counting.{Fronting, Fronted};
ghost use Rattle.counting.specs.Lent.{TabledIn, taken_of, CountedAtIn, CountingIn, CountedIn};
ghost use Rattle.cells.specs.Tables.{at_count, at_free, at_front, at_parent, at_touched, parents, hots, seen, front, SameTree, SameFlags, SameStacks, SameLinks};

use adjacency::Incidence;
use cells::{Flags, Link, Node, Stack};
use lent_graph::Graph;

// The end y of an edge of x where it is a detector; x where it is the boundary, which is d.
pub fn detector_at(d: usize, x: u32, y: u32) -> u32
    ensures { result ≡ cond (eqb y d) x y }
{
    if y as usize == d { x } else { y }
}

// Lists those of the n detectors seen whose cluster is active. Each that is seen is left pointing at its root.
// kept: each table by itself; the struct of all six would need clauses for links, growth and sat, and that flags is only read
pub fn front(d: usize, tree: &mut [Node], flags: &[Flags], stacks: &mut [Stack], n: usize) -> usize
    requires fronting { Fronting d (seen stacks.old) n (parents tree.old) (hots flags.now) (front stacks.old) }
    ensures { Fronted d (seen stacks.old) n (parents tree.old) (hots flags.now) (parents tree.new) (front stacks.new) result
        × SameTree (at_parent ∷ []) tree.old tree.new × SameStacks (at_front ∷ []) stacks.old stacks.new }
{
    let mut m = 0;
    for i in 0..n {
        let x = stacks[i].seen;
        let r = forest::compress(d, tree, x as usize);
        let h = flags[r].hot;
        stacks[m].front = x;
        m += h as usize;
    }
    m
}

// Lists the open edges of the live detector x from `from` on, beside each the count of its live ends, frees the cluster of x if there is one, and returns the place past them. An edge whose other end is live too is listed at the lower of the two. Each open edge is written before it is known whether it is listed, since that cannot be foretold.
// kept: each table by itself; the struct of all six would need clauses for stacks and growth, and that tree and sat are only read
pub fn count_at(
    g: &Graph,
    adj: &Incidence,
    tree: &[Node],
    flags: &mut [Flags],
    links: &mut [Link],
    sat: &[bool],
    x: u32,
    from: usize,
) -> usize
    requires tabled { TabledIn g.now adj.now tree.now flags.old sat.now }
    requires x_lt_d { x < g.now.detectors }
    requires x_in_bounds { from + length (taken_of g.now tree.now flags.old sat.now x) < length links.old }
    ensures { CountedAtIn g.now tree.now sat.now x from result flags.old flags.new links.old links.new
        × SameFlags (at_free ∷ []) flags.old flags.new × SameLinks (at_touched ∷ at_count ∷ []) links.old links.new }
{
    // taken out of g once, or each turn would read it there again
    let d = g.detectors;
    let r = tree[x as usize].parent;
    let first = adj.offsets[x as usize] as usize;
    let end = adj.offsets[x as usize + 1] as usize;
    let mut at = from;
    let mut found = false;
    for neighbor in &adj.neighbors[first..end] {
        let e = neighbor.edge;
        let y = neighbor.other;
        let saturated = sat[e as usize];
        if saturated {
            continue;
        }
        found = true;
        let z = detector_at(d, x, y);
        let q = tree[z as usize].parent;
        let h = flags[q as usize].hot;
        let live = (y as usize != d) & h;
        links[at].touched = e;
        links[at].count = 1 + live as u32;
        at += (!live | (x < y)) as usize;
    }
    if found {
        flags[r as usize].free = true;
    }
    at
}

// Step 1: the counted edges, beside each its count, in the order of the m live detectors; their clusters that have one are free. Returns how many there are.
// kept: each table by itself; the struct of all six would need clauses for growth, and that tree, stacks and sat are only read
pub fn count(
    g: &Graph,
    adj: &Incidence,
    tree: &[Node],
    flags: &mut [Flags],
    stacks: &[Stack],
    links: &mut [Link],
    sat: &[bool],
    m: usize,
) -> usize
    requires counting { CountingIn g.now adj.now tree.now flags.old stacks.now links.old sat.now m }
    ensures { CountedIn g.now tree.now stacks.now sat.now m result flags.old flags.new links.new
        × SameFlags (at_free ∷ []) flags.old flags.new × SameLinks (at_touched ∷ at_count ∷ []) links.old links.new }
{
    let mut at = 0;
    for stack in &stacks[..m] {
        at = count_at(g, adj, tree, flags, links, sat, stack.front, at);
    }
    at
}
