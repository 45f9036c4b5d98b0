// The marker: docs/RULES.md, "Marking". A lent graph, a shot and any list of edge numbers.
#![tactic(auto)]

ghost use Rattle.std.specs.Prelude.{◌≡◌, length};
ghost use Rattle.lent_graph.specs.Graph.{lent};
ghost use Rattle.marker.specs.Answer.{marker_long, Marks};

use codes::Refusal;
use lent_graph::Graph;
use marking::Marking;

// 2: the row, and the scratch for the edges met and the wrong detectors, are as long as the counts need.
#[tactic(auto, unfolding(crate::specs::Answer::marker_long))]
fn long(g: &Graph, row: &[u64], marks: &[u64], wrong: &[u64]) -> bool
    ensures { result ≡ marker_long g.now.detectors g.now.observables g.now.edges (length row.now) (length marks.now) (length wrong.now) }
{
    bits::words(g.observables) <= row.len()
        && bits::words(g.edges) <= marks.len()
        && bits::words(g.detectors) <= wrong.len()
}

// 1, 2, the graph, 8, 9, 10, then 13, Pass or Differs.
pub fn mark(
    g: &Graph,
    shot: &[u64],
    width: usize,
    list: &[u32],
    row: &mut [u64],
    marks: &mut [u64],
    wrong: &mut [u64],
) -> Result<Marking, Refusal>
    ensures { Marks (lent g.now) shot.now width list.now row.old marks.old wrong.old result row.new }
{
    let enough = long(g, row, marks, wrong);
    lent_graph::check_call(g, enough, shot, 1, width)?;
    let m = bits::words(g.edges);
    let n = bits::words(g.detectors);
    let judged = marking::judge(g, shot, list, &mut marks[0..m], &mut wrong[0..n])?;
    if let Marking::Pass = judged {
        let w = bits::words(g.observables);
        marking::write_row(g.edge_obs, list, &mut row[0..w]);
    }
    Ok(judged)
}
