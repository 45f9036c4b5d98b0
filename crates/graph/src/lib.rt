// docs/RULES.md, "Graphs": compiling a model to its edges.
#![tactic(auto)]

ghost use Rattle.std.specs.Prelude.{◌≡◌, ◌&&◌, ◌≤◌, leb, length};
ghost use Rattle.dem.specs.Lent.{InsideIn};
ghost use Rattle.graph.specs.Outcome.{Compiles, Joined, Joins};
ghost use Rattle.graph.specs.Lent.{check_in, outcome_in, next_in, ChainedAfter};
ghost use Rattle.edges.specs.Lent.{slices_of, ChainedIn, RoomIn, SameEdges, SameScratch, Zeroed};

use codes::{Checked, Refusal};
use dem::{Mechanism, Model, Place};
use edges::{EdgeTables, Scratch};
use lent_graph::Graph;

// One mechanism: lists (5), probability (4); zero or no detectors: skipped; over two detectors (7).
fn join(
    model: &Model,
    i: usize,
    head: Mechanism,
    place: Place,
    count: usize,
    edges: &mut EdgeTables,
    s: &mut Scratch,
) -> Result<usize, Refusal>
    requires { InsideIn model.now head place × (model.now.detectors ≤ length s.old.first.now) × RoomIn model.now.observables count edges.old s.old × ChainedIn count edges.old s.old }
    ensures joined { Joins model.now.observables count (next_in model.now i head place) result (slices_of edges.old s.old.edge_p.now) (slices_of edges.new s.new.edge_p.now)
        × ChainedAfter result edges.new s.new }
    ensures same_edges { SameEdges edges.old edges.new }
    ensures same_scratch { SameScratch s.old s.new }
{
    mechanism_check::check_mechanism(model, i, head, place)?;
    let p = head.probability;
    let d = head.detectors as usize;
    if p == 0.0 {
        return Ok(count);
    }
    if d == 0 {
        return Ok(count);
    }
    if 2 < d {
        return Err(Refusal::NotGraphlike { mechanism: i });
    }
    let at = place.entry;
    let from = at + d;
    let to = from + head.observables as usize;
    let v = edges::second_end(d, at, model.entries);
    let n = edges::share(
        model.entries[at],
        v,
        p,
        &model.entries[from..to],
        model.observables,
        count,
        edges,
        s,
    );
    Ok(n)
}

fn scratch_long(model: &Model, s: &Scratch) -> bool
    ensures { result ≡ (leb model.now.mechanisms (length s.now.edge_p.now) && (leb model.now.detectors (length s.now.first.now) && leb model.now.mechanisms (length s.now.next.now))) }
{
    model.mechanisms <= s.edge_p.len()
        && model.detectors <= s.first.len()
        && model.mechanisms <= s.next.len()
}

// The limits (1), then every slice (2).
#[tactic(auto, unfolding(crate::specs::Outcome::check_slices, crate::specs::Outcome::slices_long))]
fn check_slices(model: &Model, edges: &EdgeTables, s: &Scratch) -> Checked
    ensures { result ≡ check_in model.now edges.now s.now }
{
    codes::check_counts(model.detectors, model.observables, model.mechanisms)?;
    model_tables::check_tables(model)?;
    let graph = Graph {
        detectors: model.detectors,
        observables: model.observables,
        edges: model.mechanisms,
        edge_u: &*edges.edge_u,
        edge_v: &*edges.edge_v,
        edge_weight: &*edges.edge_weight,
        edge_obs: &*edges.edge_obs,
    };
    if lent_graph::tables_long(&graph) && scratch_long(model, s) {
        Ok(())
    } else {
        Err(Refusal::Short)
    }
}

// The limits and every slice, then per mechanism in order. A refusal may leave edges in the tables.
fn join_all(model: &Model, edges: &mut EdgeTables, s: &mut Scratch) -> Result<usize, Refusal>
    ensures joined { Joined model.now.observables (outcome_in model.now edges.old s.old) result (slices_of edges.old s.old.edge_p.now) (slices_of edges.new s.new.edge_p.now) }
    ensures same_edges { SameEdges edges.old edges.new }
    ensures same_scratch { SameScratch s.old s.new }
{
    check_slices(model, edges, s)?;
    edges::no_chains(s.first);
    let mut place = Place {
        component: 0,
        entry: 0,
    };
    let mut count = 0;
    for i in 0..model.mechanisms {
        let h = model.head(i);
        count = join(model, i, h, place, count, edges, s)?;
        place = model.past(h, place);
    }
    Ok(count)
}

// A refusal leaves every table zero, whole.
pub fn refuse(r: Refusal, edges: &mut EdgeTables) -> Result<usize, Refusal>
    ensures refused { result ≡ Err r }
    ensures zeroed { Zeroed edges.old edges.new }
    ensures same { SameEdges edges.old edges.new }
{
    edges::zero_edges(edges);
    Err(r)
}

// The edge graph of a model. The scratch may hold anything, and anything is left in it.
pub fn from_model(model: &Model, edges: &mut EdgeTables, s: &mut Scratch) -> Result<usize, Refusal>
    ensures compiles { Compiles model.now.detectors model.now.observables (outcome_in model.now edges.old s.old) result (slices_of edges.old s.old.edge_p.now) (slices_of edges.new s.new.edge_p.now) }
    ensures same_edges { SameEdges edges.old edges.new }
    ensures same_scratch { SameScratch s.old s.new }
{
    match join_all(model, edges, s) {
        Ok(n) => Ok(n),
        Err(r) => refuse(r, edges),
    }
}
