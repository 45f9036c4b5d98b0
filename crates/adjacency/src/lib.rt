// The edges at each detector, ascending, each in a row with its other end: adj_offsets has where each detector's begin, adj the rows.
#![tactic(auto)]

ghost use Rattle.std.specs.Prelude.{◌+◌, ◌*◌, ◌<◌, ◌≤◌, ◌≡◌, length, get_or, replicate};
ghost use Rattle.adjacency.specs.Adjacent.{Put};
ghost use Rattle.adjacency.specs.Pairs.{near, away};
ghost use Rattle.adjacency.specs.Lent.{SizedIn, CountedIn, SummedIn, AdjacentIn, TabledIn, AdjacentPartsIn};

use lent_graph::Graph;

// An edge at a detector, and its other end.
// kept: C shares the row; the other end of a boundary edge is a number there, that of the detectors
#[repr(C)]
#[derive(Clone, Copy)]
pub struct Neighbor {
    pub edge: u32,
    pub other: u32,
}

// The edges at each detector: offsets has where each one's begin.
#[derive(Clone, Copy)]
pub struct Incidence<'a> {
    pub offsets: &'a [u32],
    pub neighbors: &'a [Neighbor],
}

// Counts the edges at each detector.
fn degrees(g: &Graph, adj_offsets: &mut [u32])
    requires sized { SizedIn g.now adj_offsets.old }
    requires adj_offsets_value { adj_offsets.old ≡ replicate (length adj_offsets.old) 0 }
    ensures { CountedIn g.now adj_offsets.new }
{
    // taken out of g once, or each turn would read them there again
    let edge_u = g.edge_u;
    let edge_v = g.edge_v;
    for e in (0..edge_u.len()).rev() {
        let a = edge_u[e] as usize;
        adj_offsets[a] += 1;
        let far = edge_v[e];
        if far != lent_graph::BOUNDARY {
            let b = far as usize;
            adj_offsets[b] += 1;
        }
    }
}

// Each detector's place past its last edge, and the place past all.
fn sums(g: &Graph, adj_offsets: &mut [u32])
    requires sized { SizedIn g.now adj_offsets.old }
    requires counted { CountedIn g.now adj_offsets.old }
    ensures { SummedIn g.now adj_offsets.new }
{
    let mut sum = 0;
    for offset in adj_offsets.iter_mut() {
        sum += *offset;
        *offset = sum;
    }
}

// Puts the edge e, whose other end is y, before the edges of x.
// kept: two slices lent for writing come one by one; a struct of the two would save a parameter and need a clause that each is the one lent
fn put(adj_offsets: &mut [u32], adj: &mut [Neighbor], x: usize, e: u32, y: u32)
    requires { (x < length adj_offsets.old) × (0 < get_or adj_offsets.old x 0) × (get_or adj_offsets.old x 0 ≤ length adj.old) }
    ensures { Put adj_offsets.old (near adj.old) (away adj.old) adj_offsets.new (near adj.new) (away adj.new) x e y }
{
    let i = adj_offsets[x] - 1;
    adj_offsets[x] = i;
    let at = i as usize;
    adj[at] = Neighbor { edge: e, other: y };
}

// Puts every edge at its ends, the last first, so that each detector's come out ascending.
// kept: two slices lent for writing come one by one; a struct of the two would save a parameter and need a clause that each is the one lent
fn fill(g: &Graph, adj_offsets: &mut [u32], adj: &mut [Neighbor])
    requires sized { SizedIn g.now adj_offsets.old }
    requires summed { SummedIn g.now adj_offsets.old }
    requires edge_u_in_bounds { 2 * length g.now.edge_u.now ≤ length adj.old }
    ensures { AdjacentIn g.now adj_offsets.new adj.new }
{
    // taken out of g once, or each turn would read them there again
    let edge_u = g.edge_u;
    let edge_v = g.edge_v;
    for e in (0..edge_u.len()).rev() {
        let a = edge_u[e];
        let b = edge_v[e];
        if b != lent_graph::BOUNDARY {
            put(adj_offsets, adj, a as usize, e as u32, b);
            put(adj_offsets, adj, b as usize, e as u32, a);
        } else {
            put(adj_offsets, adj, a as usize, e as u32, g.detectors as u32);
        }
    }
}

// Works out the adjacency.
// kept: two slices lent for writing come one by one; a struct of the two would save a parameter and need a clause that each is the one lent
pub fn adjacency(g: &Graph, adj_offsets: &mut [u32], adj: &mut [Neighbor])
    requires sized { SizedIn g.now adj_offsets.old }
    requires edge_u_in_bounds { 2 * length g.now.edge_u.now ≤ length adj.old }
    ensures { AdjacentIn g.now adj_offsets.new adj.new }
{
    adj_offsets.fill(0);
    degrees(g, adj_offsets);
    sums(g, adj_offsets);
    fill(g, adj_offsets, adj);
}

// The same where slices may be longer than the counts need: of the ends and the offsets the first entries are lent.
// kept: two slices lent for writing come one by one; a struct of the two would save a parameter and need a clause that each is the one lent
pub fn tabulate(g: &Graph, adj_offsets: &mut [u32], adj: &mut [Neighbor])
    requires { TabledIn g.now adj_offsets.old adj.old }
    ensures { AdjacentPartsIn g.now adj_offsets.new adj.new }
{
    let offsets = g.detectors + 1;
    let whole = Graph {
        edge_u: &g.edge_u[0..g.edges],
        edge_v: &g.edge_v[0..g.edges],
        ..*g
    };
    adjacency(&whole, &mut adj_offsets[0..offsets], adj);
}
