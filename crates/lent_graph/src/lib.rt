// docs/RULES.md, "Graphs" and "Refusals": the check of a lent graph, and what every call on one checks first.
#![tactic(auto)]

ghost use Rattle.std.specs.Prelude.{◌≡◌, ◌≤◌, true, length};
ghost use Rattle.lists.specs.Lists.{below};
ghost use Rattle.bits.specs.Rows.{words, is_clear};
ghost use Rattle.weight.specs.Weight.{weight_fits};
ghost use Rattle.codes.specs.Limits.{max_observables, max_mechanisms};
ghost use Rattle.steps.specs.Call.{check_edges};
ghost use Rattle.lent_graph.specs.Lent.{ends_of, check_row};
ghost use Rattle.lent_graph.specs.Call.{tables_in, check_rows, check_call};
ghost use Rattle.lent_graph.specs.Graph.{lent, edge_graph};

use codes::{Checked, Refusal};

// The second end of a boundary edge; of a cluster, that it has no exit.
// kept: it stands in lent tables of u32, whose layout C shares, so none is a number there, above that of every detector
pub const BOUNDARY: u32 = 4294967295;

// A graph as a host lends it: three counts and four tables, each as long as the counts need or longer.
// kept: C lends a slice for each column
#[derive(Clone, Copy)]
pub struct Graph<'a> {
    pub detectors: usize,
    pub observables: usize,
    pub edges: usize,
    pub edge_u: &'a [u32],
    pub edge_v: &'a [u32],
    pub edge_weight: &'a [f64],
    pub edge_obs: &'a [u64],
}

// Both ends are detectors, ascending, or the second is the boundary.
#[tactic(auto, unfolding(crate::specs::Lent::ends_of))]
fn ends_fit(detectors: usize, u: u32, v: u32) -> bool
    ensures { result ≡ ends_of detectors u v }
{
    (u as usize) < detectors && (v == BOUNDARY || (u < v && (v as usize) < detectors))
}

// No bit past the observables: only the last word has any.
#[tactic(auto, unfolding(bits::specs::Rows::words), using(bits::proofs::Rows::clear_whole))]
fn observables_fit(observables: usize, row: &[u64]) -> bool
    requires { length row.now ≡ words observables }
    ensures { result ≡ is_clear observables row.now }
{
    let tail = observables % 64;
    tail == 0 || row[observables / 64] <= (1 << tail) - 1
}

// From 0 to 1,024, or infinity; minus zero is 0, and NaN is neither.
#[tactic(auto, unfolding(weight::specs::Weight::weight_fits))]
fn weight_fits(w: f64) -> bool
    ensures { result ≡ weight_fits w }
{
    0.0 <= w && (w <= 1024.0 || w == f64::INFINITY)
}

// Edge e: its ends and observables (5), then its weight (4).
#[tactic(auto, unfolding(crate::specs::Lent::check_row))]
fn check_edge(
    detectors: usize,
    observables: usize,
    e: usize,
    u: u32,
    v: u32,
    weight: f64,
    row: &[u64],
) -> Checked
    requires { length row.now ≡ words observables }
    ensures { result ≡ check_row detectors observables e u v weight row.now }
{
    if !ends_fit(detectors, u, v) || !observables_fit(observables, row) {
        return Err(Refusal::Index { at: e });
    }
    if !weight_fits(weight) {
        return Err(Refusal::Probability { at: e });
    }
    Ok(())
}

// Edge by edge, in tables that are long enough.
#[tactic(auto, unfolding(lists::specs::Lists::below), using(crate::proofs::Laws::long, crate::proofs::Edges::inside, crate::proofs::Edges::edges_refused, crate::proofs::Edges::edges_on, crate::proofs::Edges::edges_end))]
pub fn check_edges(g: &Graph) -> Checked
    requires { (g.now.observables ≤ max_observables) × (g.now.edges ≤ max_mechanisms) × (tables_in (lent g.now) ≡ true) }
    ensures { result ≡ check_edges (edge_graph g.now) (below g.now.edges) }
{
    let n = bits::words(g.observables);
    for e in 0..g.edges {
        let from = e * n;
        check_edge(
            g.detectors,
            g.observables,
            e,
            g.edge_u[e],
            g.edge_v[e],
            g.edge_weight[e],
            &g.edge_obs[from..from + n],
        )?;
    }
    Ok(())
}

// An entry for each edge in every table.
#[tactic(auto, unfolding(crate::specs::Lent::tables_long))]
pub fn tables_long(g: &Graph) -> bool
    requires { (g.now.observables ≤ max_observables) × (g.now.edges ≤ max_mechanisms) }
    ensures { result ≡ tables_in (lent g.now) }
{
    g.edges <= g.edge_u.len()
        && g.edges <= g.edge_v.len()
        && g.edges <= g.edge_weight.len()
        && g.edges * bits::words(g.observables) <= g.edge_obs.len()
}

// 8, 9, then 10.
#[tactic(auto, unfolding(crate::specs::Call::check_rows, packed::specs::Packed::packed_of))]
fn check_rows(detectors: usize, rows: &[u64], shots: usize, width: usize) -> Checked
    ensures { result ≡ check_rows detectors rows.now shots width }
{
    packed::try_from_shot_major(rows, shots, width)?;
    if width != detectors {
        return Err(Refusal::Width);
    }
    Ok(())
}

// 1, 2 (the tables, and whether the call's own slices are long enough), the graph, then 8, 9, 10.
#[tactic(auto, unfolding(crate::specs::Call::check_call), using(codes::proofs::Checks::counts_within))]
pub fn check_call(g: &Graph, long: bool, rows: &[u64], shots: usize, width: usize) -> Checked
    ensures { result ≡ check_call (lent g.now) long rows.now shots width }
{
    codes::check_counts(g.detectors, g.observables, g.edges)?;
    codes::check_shots(shots)?;
    if !tables_long(g) || !long {
        return Err(Refusal::Short);
    }
    check_edges(g)?;
    check_rows(g.detectors, rows, shots, width)
}
