// A shot decoded: docs/RULES.md, "Growth" and "Peeling". The call checks all that it is handed, puts its scratch to rest and decodes.
#![tactic(auto)]

ghost use Rattle.std.specs.Prelude.{◌<◌, ◌≤◌, ◌≡◌, length};
ghost use Rattle.steps.specs.Shot.{decode, row_left};
ghost use Rattle.steps.specs.Call.{lit_of, list_left};
ghost use Rattle.scratch.specs.Scratch.{lengths_in};
ghost use Rattle.scratch.specs.Lent.{SameScratch};
ghost use Rattle.lent_graph.specs.Graph.{lent, edge_graph};
ghost use Rattle.rest.specs.Rows.{Spaces};
ghost use Rattle.shot.specs.Shots.{Given, shot_of};
ghost use Rattle.shot.specs.Lent.{LongerIn};
ghost use Rattle.decoder.specs.Answer.{handed, Decodes};

use adjacency::Incidence;
use cells::{Flags, Link, Node, Stack, Tables};
use codes::Refusal;
use lent_graph::Graph;
use scratch::Scratch;
use shot::Shot;

// The tables put to rest, whatever they held, and the shot decoded. Of slices that may be longer than the counts need the first entries are lent.
// kept: the tables come one by one: it was tried with the struct, but the borrow checker has no rule for a struct made of parts of slices that stand in a lent struct
#[tactic(auto, using(shot::proofs::Longer::small_of))]
fn reset_and_decode(
    g: &Graph,
    adj: &Incidence,
    shot: &[u64],
    row: &mut [u64],
    list: &mut [u32],
    tree: &mut [Node],
    flags: &mut [Flags],
    stacks: &mut [Stack],
    links: &mut [Link],
    growth: &mut [f64],
    sat: &mut [bool],
) -> Shot
    requires longer { LongerIn g.now adj.now }
    requires given { Given g.now.detectors g.now.observables shot.now row.old list.old }
    requires spaces { Spaces g.now.detectors g.now.edges tree.old flags.old growth.old sat.old }
    requires detectors_in_bounds { (g.now.detectors ≤ length stacks.old) × (g.now.edges < length links.old) }
    ensures answers { result ≡ shot_of (decode (edge_graph g.now) (lit_of g.now.detectors shot.now)) }
    ensures lists { list.new ≡ list_left list.old (decode (edge_graph g.now) (lit_of g.now.detectors shot.now)) }
    ensures rows { row.new ≡ row_left (edge_graph g.now) row.old (decode (edge_graph g.now) (lit_of g.now.detectors shot.now)) }
{
    let d = g.detectors;
    let e = g.edges;
    rest::reset(d, e, tree, flags, growth, sat);
    let offsets = d + 1;
    let whole = Graph {
        edge_u: &g.edge_u[0..e],
        edge_v: &g.edge_v[0..e],
        edge_weight: &g.edge_weight[0..e],
        ..*g
    };
    let near = Incidence {
        offsets: &adj.offsets[0..offsets],
        neighbors: adj.neighbors,
    };
    let mut cut = Tables {
        tree: &mut tree[0..d],
        flags: &mut flags[0..d],
        stacks,
        links,
        growth: &mut growth[0..e],
        sat: &mut sat[0..e],
    };
    shot::decode_clean(&whole, &near, shot, row, list, &mut cut)
}

// The graph is checked and its edges at each detector worked out once. A shot with no lit detector is answered before a table is written.
pub fn decode_shot(
    g: &Graph,
    shot: &[u64],
    width: usize,
    row: &mut [u64],
    list: &mut [u32],
    s: &mut Scratch,
) -> Result<Shot, Refusal>
    ensures decodes { Decodes (handed (lent g.now) shot.now width row.old list.old (lengths_in s.old)) result list.new row.new }
    ensures same { SameScratch s.old s.new }
{
    let have = s.lengths();
    let long = own_slices::own_long(
        g.detectors,
        g.observables,
        g.edges,
        1,
        row.len(),
        list.len(),
        have,
    );
    lent_graph::check_call(g, long, shot, 1, width)?;
    if shot::is_blank(shot) {
        return Ok(Shot::Decoded {
            rounds: 0,
            length: 0,
        });
    }
    let adj_offsets = &mut *s.adj_offsets;
    let neighbors = &mut *s.adj;
    adjacency::tabulate(g, adj_offsets, neighbors);
    let adj = Incidence {
        offsets: adj_offsets,
        neighbors,
    };
    let t = &mut s.tables;
    Ok(reset_and_decode(
        g, &adj, shot, row, list, t.tree, t.flags, t.stacks, t.links, t.growth, t.sat,
    ))
}
