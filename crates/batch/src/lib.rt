// A batch decoded: docs/RULES.md, "Shots and rows" and "Refusals". The call checks all that it is handed, puts its scratch to rest and decodes its shots.
#![tactic(auto)]

ghost use Rattle.std.specs.Prelude.{◌≡◌, length};
ghost use Rattle.lists.specs.Lists.{below};
ghost use Rattle.scratch.specs.Scratch.{lengths_in};
ghost use Rattle.scratch.specs.Lent.{SameScratch};
ghost use Rattle.lent_graph.specs.Graph.{lent, edge_graph};
ghost use Rattle.batch_rows.specs.Rows.{check_shots_of, rows_of};
ghost use Rattle.batch.specs.Batch.{handed, checks, Decodes};

use adjacency::Incidence;
use codes::Checked;
use lent_graph::Graph;
use scratch::Scratch;

// The shots of an accepted call decoded. The edges at each detector are worked out once.
pub fn decode_accepted(
    g: &Graph,
    rows: &[u64],
    shots: usize,
    out: &mut [u64],
    list: &mut [u32],
    s: &mut Scratch,
) -> Checked
    requires { checks (handed (lent g.now) rows.now shots g.now.detectors out.old (length list.old) (lengths_in s.old)) ≡ Ok tt }
    ensures answers { result ≡ check_shots_of (edge_graph g.now) rows.now (below shots) }
    ensures rows { out.new ≡ rows_of (edge_graph g.now) rows.now (below shots) out.old }
    ensures same { SameScratch s.old s.new }
{
    let adj_offsets = &mut *s.adj_offsets;
    let neighbors = &mut *s.adj;
    adjacency::tabulate(g, adj_offsets, neighbors);
    let adj = Incidence {
        offsets: adj_offsets,
        neighbors,
    };
    let t = &mut s.tables;
    batch_rows::reset_and_decode_rows(
        g, &adj, rows, shots, out, list, t.tree, t.flags, t.stacks, t.links, t.growth, t.sat,
    )
}

// All checks, in their order, then the shots.
pub fn decode_batch(
    g: &Graph,
    rows: &[u64],
    shots: usize,
    width: usize,
    out: &mut [u64],
    list: &mut [u32],
    s: &mut Scratch,
) -> Checked
    ensures decodes { Decodes (handed (lent g.now) rows.now shots width out.old (length list.old) (lengths_in s.old)) result out.new }
    ensures same { SameScratch s.old s.new }
{
    let have = s.lengths();
    let long = own_slices::own_long(
        g.detectors,
        g.observables,
        g.edges,
        shots,
        out.len(),
        list.len(),
        have,
    );
    lent_graph::check_call(g, long, rows, shots, width)?;
    decode_accepted(g, rows, shots, out, list, s)
}
