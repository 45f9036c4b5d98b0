// docs/RULES.md, "Graphs": mechanisms with the same detectors share one edge, found by a chain and written into the tables.
#![tactic(auto)]

ghost use Rattle.std.specs.Prelude.{◌≡◌, true, false, ◌&&◌, ◌+◌, ◌*◌, ◌<◌, ◌≤◌, eqb, length, set, replicate};
ghost use Rattle.bits.specs.Rows.{words};
ghost use Rattle.weight.specs.Weight.{weight_of};
ghost use Rattle.codes.specs.Limits.{max_observables, max_mechanisms};
ghost use Rattle.dem.specs.Model.{list_fits};
ghost use Rattle.edges.specs.Compile.{obs_row};
ghost use Rattle.edges.specs.Tables.{slices, put_row, second_end, edge_with, Shares};
ghost use Rattle.edges.specs.Chains.{chain_end, last_ends};
ghost use Rattle.edges.specs.Lent.{slices_of, ChainedIn, RoomIn, SameEdges, SameScratch, Zeroed};

// The tables of the edges, lent for writing: a row of words for each in the last.
// kept: C lends a slice for each column
#[derive(Drop)]
pub struct EdgeTables<'a> {
    pub edge_u: &'a mut [u32],
    pub edge_v: &'a mut [u32],
    pub edge_weight: &'a mut [f64],
    pub edge_obs: &'a mut [u64],
}

// The scratch of compiling: the probability of each edge, and the chains of edges with one first end.
#[derive(Drop)]
pub struct Scratch<'a> {
    pub edge_p: &'a mut [f64],
    pub first: &'a mut [u32],
    pub next: &'a mut [u32],
}

// The end of a chain.
// kept: the chains are in lent tables of u32, whose layout C shares, so their end is a number in them, above that of every edge
pub const NONE: u32 = 4294967295;

// Whether an edge has the ends u and v.
// kept: four numbers; a derive would need a pair made of each two
pub fn same_ends(a: u32, b: u32, u: u32, v: u32) -> bool
    ensures { result ≡ (eqb a u && eqb b v) }
{
    a == u && b == v
}

// The edge with these ends among the first `count`: the chain of its first end is walked.
pub fn find_edge(u: u32, v: u32, count: usize, edges: &EdgeTables, s: &Scratch) -> Option<usize>
    requires { (u < length s.now.first.now) × (count ≤ length edges.now.edge_u.now) × (count ≤ length edges.now.edge_v.now) × (count ≤ length s.now.next.now) × ChainedIn count edges.now s.now }
    ensures { result ≡ last_ends edges.now.edge_u.now edges.now.edge_v.now u v count }
{
    let mut at = s.first[u as usize];
    // kept: a walk along a chain, each next place read from a table: a `for` would need an iterator of its own
    while at != NONE {
        let e = at as usize;
        at = s.next[e];
        if same_ends(edges.edge_u[e], edges.edge_v[e], u, v) {
            return Some(e);
        }
    }
    None
}

// The row of a list of observables.
#[tactic(auto, using(crate::proofs::Rows::word_below))]
pub fn write_row(observables: usize, list: &[u32], row: &mut [u64])
    requires { (length row.old ≡ words observables) × (list_fits observables list.now ≡ true) }
    ensures { row.new ≡ obs_row observables list.now }
{
    row.fill(0);
    for j in list {
        bits::set(row, *j as usize);
    }
}

// Edge e in every table: its ends, its probability with its weight, and its row.
pub fn write_edge(
    e: usize,
    u: u32,
    v: u32,
    p: f64,
    list: &[u32],
    observables: usize,
    edges: &mut EdgeTables,
    edge_p: &mut [f64],
)
    requires { (observables ≤ max_observables) × (list_fits observables list.now ≡ true) × (e < max_mechanisms) × (e < length edges.old.edge_u.now) × (e < length edges.old.edge_v.now) × (e < length edges.old.edge_weight.now) × (e * words observables + words observables ≤ length edges.old.edge_obs.now) × (e < length edge_p.old) }
    ensures written { slices_of edges.new edge_p.new
        ≡ slices (set edges.old.edge_u.now e u) (set edges.old.edge_v.now e v) (set edges.old.edge_weight.now e (weight_of p)) (put_row (words observables) e edges.old.edge_obs.now (obs_row observables list.now)) (set edge_p.old e p) }
    ensures same { SameEdges edges.old edges.new }
{
    edges.edge_u[e] = u;
    edges.edge_v[e] = v;
    edges.edge_weight[e] = weight::weight(p);
    edge_p[e] = p;
    let n = bits::words(observables);
    let from = e * n;
    let to = from + n;
    write_row(observables, list, &mut edges.edge_obs[from..to]);
}

// Mechanisms with the same detectors share one edge: only a strictly greater probability replaces probability and observables. Returns the number of edges.
pub fn share(
    u: u32,
    v: u32,
    p: f64,
    list: &[u32],
    observables: usize,
    count: usize,
    edges: &mut EdgeTables,
    s: &mut Scratch,
) -> usize
    requires { (u < length s.old.first.now) × (list_fits observables list.now ≡ true) × RoomIn observables count edges.old s.old × ChainedIn count edges.old s.old }
    ensures shared { Shares observables count (edge_with u v p list.now) result (slices_of edges.old s.old.edge_p.now) (slices_of edges.new s.new.edge_p.now)
        × ChainedIn result edges.new s.new }
    ensures same_edges { SameEdges edges.old edges.new }
    ensures same_scratch { SameScratch s.old s.new }
{
    match find_edge(u, v, count, edges, s) {
        Some(e) => {
            if s.edge_p[e] < p {
                write_edge(e, u, v, p, list, observables, edges, s.edge_p);
            }
            count
        }
        None => {
            write_edge(count, u, v, p, list, observables, edges, s.edge_p);
            let a = u as usize;
            s.next[count] = s.first[a];
            s.first[a] = count as u32;
            count + 1
        }
    }
}

// The second end of an edge of d detectors: the boundary where there is one.
// kept: it goes into a lent table of u32, where the boundary is a number
pub fn second_end(d: usize, at: usize, entries: &[u32]) -> u32
    requires { at + d ≤ length entries.now }
    ensures { result ≡ second_end d at entries.now }
{
    if d < 2 {
        lent_graph::BOUNDARY
    } else {
        entries[at + 1]
    }
}

// A refusal leaves the tables of the edges zero.
pub fn zero_edges(edges: &mut EdgeTables)
    ensures zeroed { Zeroed edges.old edges.new }
    ensures same { SameEdges edges.old edges.new }
{
    edges.edge_u.fill(0);
    edges.edge_v.fill(0);
    edges.edge_weight.fill(0.0);
    edges.edge_obs.fill(0);
}

// No end begins a chain.
pub fn no_chains(first: &mut [u32])
    ensures { first.new ≡ replicate (length first.old) chain_end }
{
    first.fill(NONE);
}
