// Tables at rest: put to rest as a call begins, and after each shot what it has changed.
#![tactic(auto)]

ghost use Rattle.std.specs.Prelude.{◌<◌, ◌≡◌, length, set, replicate, false, map};
ghost use Rattle.std.proofs.Math.Seq.{slice};
ghost use Rattle.std.specs.Float.{binary64};
ghost use Rattle.std.specs.Float.Ieee.{of_bits};
ghost use Rattle.lists.specs.Lists.{below};
ghost use Rattle.adjacency.specs.Pairs.{near};
ghost use Rattle.rest.specs.Clean.{Stretch, Cleared};
ghost use Rattle.rest.specs.Rows.{cut, alone, quiet, Spaces, Rested};
ghost use Rattle.rest.specs.Lent.{CleanIn, CleaningIn, UsedIn};

use adjacency::{Incidence, Neighbor};
use cells::{Flags, Node, Stack};
use lent_graph::Graph;

// A detector at rest: a cluster of its own, without exit.
fn alone(x: u32) -> Node
    ensures { result ≡ alone x }
{
    Node {
        parent: x,
        exit: lent_graph::BOUNDARY,
    }
}

// An edge that has not grown. A function of its own, so that what it stores is a fact of its own.
fn shrink(growth: &mut [f64], e: usize)
    requires { e < length growth.old }
    ensures { growth.new ≡ set growth.old e (of_bits binary64 0) }
{
    growth[e] = 0.0;
}

// The edges listed from start to end have neither grown nor saturated.
pub fn clean_edges(adj: &[Neighbor], start: usize, end: usize, growth: &mut [f64], sat: &mut [bool])
    requires { Stretch (near adj.now) start end (length sat.old) × (length growth.old ≡ length sat.old) }
    ensures { Cleared (slice start end (near adj.now)) growth.old sat.old growth.new sat.new }
{
    for neighbor in &adj[start..end] {
        let e = neighbor.edge as usize;
        shrink(growth, e);
        sat[e] = false;
    }
}

// The n detectors seen and their edges are at rest. A detector's rows are stored whole.
// kept: each table by itself; the struct of all six would need clauses for links, and that stacks is only read
pub fn clean(
    g: &Graph,
    adj: &Incidence,
    tree: &mut [Node],
    flags: &mut [Flags],
    stacks: &[Stack],
    growth: &mut [f64],
    sat: &mut [bool],
    n: usize,
)
    requires cleaning { CleaningIn g.now adj.now stacks.now n }
    requires used { UsedIn g.now tree.old flags.old stacks.now growth.old sat.old n }
    ensures clean { CleanIn g.now tree.new flags.new growth.new sat.new }
{
    let offsets = adj.offsets;
    let neighbors = adj.neighbors;
    for stack in &stacks[..n] {
        let x = stack.seen;
        let k = x as usize;
        tree[k] = alone(x);
        flags[k] = cells::FLAGS;
        let start = offsets[k] as usize;
        let end = offsets[k + 1] as usize;
        clean_edges(neighbors, start, end, growth, sat);
    }
}

// Each detector is a cluster of its own, without exit.
pub fn rest_tree(t: &mut [Node])
    requires { length t.old < 4294967296 }
    ensures { t.new ≡ map alone (below (length t.old)) }
{
    for i in 0..t.len() {
        t[i] = alone(i as u32);
    }
}

// Nothing is marked.
pub fn rest_flags(t: &mut [Flags])
    ensures { t.new ≡ replicate (length t.old) quiet }
{
    t.fill(cells::FLAGS);
}

// The tables are at rest.
// kept: each table by itself; the struct of all six would need clauses for stacks and links, which it has nothing to do with
pub fn reset(
    detectors: usize,
    edges: usize,
    tree: &mut [Node],
    flags: &mut [Flags],
    growth: &mut [f64],
    sat: &mut [bool],
)
    requires { (detectors < 4294967296) × Spaces detectors edges tree.old flags.old growth.old sat.old }
    ensures { Rested detectors edges (cut detectors tree.new) (cut detectors flags.new) (cut edges growth.new) (cut edges sat.new) }
{
    rest_tree(&mut tree[0..detectors]);
    rest_flags(&mut flags[0..detectors]);
    growth[0..edges].fill(0.0);
    sat[0..edges].fill(false);
}
