// The shots of a batch decoded one after another, each into its row of the output: docs/RULES.md, "Shots and rows".
#![tactic(auto)]

ghost use Rattle.std.specs.Prelude.{◌<◌, ◌≤◌, ◌≡◌, length};
ghost use Rattle.lists.specs.Lists.{below};
ghost use Rattle.bits.specs.Rows.{words};
ghost use Rattle.steps.specs.Rows.{zeros};
ghost use Rattle.steps.specs.Shot.{row_left};
ghost use Rattle.cells.specs.Lent.{SameSlices};
ghost use Rattle.lent_graph.specs.Graph.{edge_graph, whole_graph};
ghost use Rattle.rest.specs.Rows.{Spaces};
ghost use Rattle.shot.specs.Shots.{Given, shot_of};
ghost use Rattle.shot.specs.Lent.{Decodable, LongerIn, decode_on};
ghost use Rattle.batch_rows.specs.Ready.{ReadyIn};
ghost use Rattle.batch_rows.specs.Row.{put_row, shot_at, row_for, GivenRow};
ghost use Rattle.batch_rows.specs.Rows.{check_shots_of, rows_of, GivenRows};

use adjacency::Incidence;
use cells::{Flags, Link, Node, Stack, Tables};
use codes::{Checked, Refusal};
use lent_graph::Graph;
use shot::Shot;

// Zeroes the row and decodes the shot into it. A blank shot is answered here, before the tables are handed on.
fn decode_row(
    g: &Graph,
    adj: &Incidence,
    shot: &[u64],
    row: &mut [u64],
    list: &mut [u32],
    t: &mut Tables,
) -> Shot
    requires tables { Decodable g.now adj.now }
    requires given { Given g.now.detectors g.now.observables shot.now row.old list.old }
    requires row_len { length row.old ≡ words g.now.observables }
    requires ready { ReadyIn g.now t.old }
    ensures answers { result ≡ shot_of (decode_on g.now shot.now) }
    ensures rows { row.new ≡ row_left (whole_graph g.now) (zeros (whole_graph g.now)) (decode_on g.now shot.now) }
    ensures rests { ReadyIn g.now t.new }
    ensures same { SameSlices t.old t.new }
{
    row.fill(0);
    if shot::is_blank(shot) {
        return Shot::Decoded {
            rounds: 0,
            length: 0,
        };
    }
    shot::decode_clean(g, adj, shot, row, list, t)
}

// The shot in its part of the rows. Its row is a part of the output, lent on to the decoder of a shot.
#[tactic(auto, using(crate::proofs::Parts::parts))]
fn decode_at(
    g: &Graph,
    adj: &Incidence,
    rows: &[u64],
    shot: usize,
    out: &mut [u64],
    list: &mut [u32],
    t: &mut Tables,
) -> Shot
    requires tables { Decodable g.now adj.now }
    requires given_row { GivenRow g.now.detectors g.now.observables shot rows.now out.old list.old }
    requires ready { ReadyIn g.now t.old }
    ensures answers { result ≡ shot_of (shot_at (whole_graph g.now) rows.now shot) }
    ensures rows { out.new ≡ put_row (words g.now.observables) shot (row_for (whole_graph g.now) rows.now shot) out.old }
    ensures rests { ReadyIn g.now t.new }
    ensures same { SameSlices t.old t.new }
{
    let m = bits::words(g.detectors);
    let w = bits::words(g.observables);
    let from = shot * m;
    let to = from + m;
    let at = shot * w;
    let end = at + w;
    decode_row(g, adj, &rows[from..to], &mut out[at..end], list, t)
}

// Shot by shot until one is Stuck, over tables at rest.
fn decode_rows(
    g: &Graph,
    adj: &Incidence,
    rows: &[u64],
    shots: usize,
    out: &mut [u64],
    list: &mut [u32],
    t: &mut Tables,
) -> Checked
    requires tables { Decodable g.now adj.now }
    requires given_rows { GivenRows g.now.detectors g.now.observables shots rows.now out.old list.old }
    requires ready { ReadyIn g.now t.old }
    ensures answers { result ≡ check_shots_of (whole_graph g.now) rows.now (below shots) }
    ensures rows { out.new ≡ rows_of (whole_graph g.now) rows.now (below shots) out.old }
    ensures same { SameSlices t.old t.new }
{
    for shot in 0..shots {
        let found = decode_at(g, adj, rows, shot, out, list, t);
        if let Shot::Stuck { detector, .. } = found {
            return Err(Refusal::Stuck { shot, detector });
        }
    }
    Ok(())
}

// The tables put to rest, whatever they held, and the shots decoded. Of slices that may be longer than the counts need the first entries are lent.
// kept: the tables come one by one: it was tried with the struct, but the borrow checker has no rule for a struct made of parts of slices that stand in a lent struct
#[tactic(auto, using(shot::proofs::Longer::small_of))]
pub fn reset_and_decode_rows(
    g: &Graph,
    adj: &Incidence,
    rows: &[u64],
    shots: usize,
    out: &mut [u64],
    list: &mut [u32],
    tree: &mut [Node],
    flags: &mut [Flags],
    stacks: &mut [Stack],
    links: &mut [Link],
    growth: &mut [f64],
    sat: &mut [bool],
) -> Checked
    requires longer { LongerIn g.now adj.now }
    requires given_rows { GivenRows g.now.detectors g.now.observables shots rows.now out.old list.old }
    requires spaces { Spaces g.now.detectors g.now.edges tree.old flags.old growth.old sat.old }
    requires detectors_in_bounds { (g.now.detectors ≤ length stacks.old) × (g.now.edges < length links.old) }
    ensures answers { result ≡ check_shots_of (edge_graph g.now) rows.now (below shots) }
    ensures rows { out.new ≡ rows_of (edge_graph g.now) rows.now (below shots) out.old }
{
    let d = g.detectors;
    let e = g.edges;
    rest::reset(d, e, tree, flags, growth, sat);
    let offsets = d + 1;
    let whole = Graph {
        edge_u: &g.edge_u[0..e],
        edge_v: &g.edge_v[0..e],
        edge_weight: &g.edge_weight[0..e],
        ..*g
    };
    let near = Incidence {
        offsets: &adj.offsets[0..offsets],
        neighbors: adj.neighbors,
    };
    let mut cut = Tables {
        tree: &mut tree[0..d],
        flags: &mut flags[0..d],
        stacks,
        links,
        growth: &mut growth[0..e],
        sat: &mut sat[0..e],
    };
    decode_rows(&whole, &near, rows, shots, out, list, &mut cut)
}
