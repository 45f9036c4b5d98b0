// docs/RULES.md, "Frames": at 04 the model that was read is checked, decomposed and compiled.
#![tactic(auto)]

ghost use Rattle.std.specs.Prelude.{◌≡◌, []};
ghost use Rattle.dem.specs.Lent.{tables_out, SameOutput};
ghost use Rattle.edges.specs.Lent.{slices_of, SameEdges};
ghost use Rattle.graph.specs.Outcome.{Compiles};
ghost use Rattle.model_graph.specs.Graph.{held_tables};
ghost use Rattle.model_graph.specs.Lent.{DecomposedIn, GraphIn, GraphOfRows, compiled_in};

use codes::Refusal;
use counts::Row;
use cover::CandidateTables;
use decompose::Scratch;
use dem::{Model, Output};
use edges::EdgeTables;
use frames::State;
use model_check::ReadModel;
use split_model::Counts;

// ---- 04

// The model checked and decomposed into output tables. The scratch of the call is its own.
fn decompose_read(n: State, read: &ReadModel, out: &mut Output) -> Result<Counts, Refusal>
    requires { tables_out out.old ≡ held_tables }
    ensures decomposed { DecomposedIn n read.now result (tables_out out.new) }
    ensures same { SameOutput out.old out.new }
{
    let mut probability = [0.0f64; 1024];
    model_check::check_read(n, read, &mut probability)?;
    let mut starts = [0u32; 17408];
    let mut before = [0u32; 17408];
    let mut last_of = [0u32; 256];
    let mut first_of = [0u32; 256];
    let mut next_of = [0u32; 1024];
    let mut numbers = [0u32; 1024];
    let mut masks = [0u16; 1024];
    let mut words0 = [0u64; 1024];
    let mut words1 = [0u64; 1024];
    let mut earlier = [0u32; 1024];
    let model = Model {
        detectors: n.detectors,
        observables: n.observables,
        mechanisms: n.mechanisms,
        probability: &probability,
        detector_counts: read.detector_counts,
        observable_counts: read.observable_counts,
        component_counts: read.component_counts,
        component_detectors: read.component_detectors,
        component_observables: read.component_observables,
        entries: read.entries,
    };
    let candidates = CandidateTables {
        numbers: &mut numbers,
        masks: &mut masks,
        words0: &mut words0,
        words1: &mut words1,
        earlier: &mut earlier,
    };
    let mut s = Scratch {
        starts: &mut starts,
        before: &mut before,
        last_of: &mut last_of,
        first_of: &mut first_of,
        next_of: &mut next_of,
        candidates,
    };
    graphlike::decompose_graphlike(&model, out, &mut s)
}

// The graph of a decomposed model, of so many mechanisms. The scratch of the call is its own.
fn compile(
    n: State,
    mechanisms: usize,
    out: &Output,
    edges: &mut EdgeTables,
) -> Result<usize, Refusal>
    ensures compiles { Compiles n.detectors n.observables (compiled_in n mechanisms out.now edges.old) result (slices_of edges.old []) (slices_of edges.new []) }
    ensures same { SameEdges edges.old edges.new }
{
    let model = Model {
        detectors: n.detectors,
        observables: n.observables,
        mechanisms,
        probability: &*out.probability,
        detector_counts: &*out.detector_counts,
        observable_counts: &*out.observable_counts,
        component_counts: &*out.component_counts,
        component_detectors: &*out.component_detectors,
        component_observables: &*out.component_observables,
        entries: &*out.entries,
    };
    let mut edge_p = [0.0f64; 1024];
    let mut first = [0u32; 256];
    let mut next = [0u32; 1024];
    let mut s = edges::Scratch {
        edge_p: &mut edge_p,
        first: &mut first,
        next: &mut next,
    };
    graph::from_model(&model, edges, &mut s)
}

// The graph of the model in columns, into its tables.
fn graph_of(n: State, read: &ReadModel, edges: &mut EdgeTables) -> Result<usize, Refusal>
    ensures graph { GraphIn n read.now (slices_of edges.old []) result (slices_of edges.new []) }
    ensures same { SameEdges edges.old edges.new }
{
    let mut probability = [0.0f64; 1024];
    let mut detector_counts = [0u8; 1024];
    let mut observable_counts = [0u8; 1024];
    let mut component_counts = [0u8; 1024];
    let mut component_detectors = [0u8; 1024];
    let mut component_observables = [0u8; 1024];
    let mut entries = [0u32; 8192];
    let mut out = Output {
        probability: &mut probability,
        detector_counts: &mut detector_counts,
        observable_counts: &mut observable_counts,
        component_counts: &mut component_counts,
        component_detectors: &mut component_detectors,
        component_observables: &mut component_observables,
        entries: &mut entries,
    };
    match decompose_read(n, read, &mut out) {
        Err(r) => graph::refuse(r, edges),
        Ok(counts) => compile(n, counts.mechanisms, &out, edges),
    }
}

// The graph of the model that was read, into its tables. Of the table of counts the first 1,024 rows are read, as many as lines fill, and no others.
pub fn model_graph(
    n: State,
    probability_bits: &[u64],
    counts: &[Row],
    entries: &[u32],
    edges: &mut EdgeTables,
) -> Result<usize, Refusal>
    ensures graph { GraphOfRows n probability_bits.now counts.now entries.now (slices_of edges.old []) result (slices_of edges.new []) }
    ensures same { SameEdges edges.old edges.new }
{
    let rows = counts.len().min(frames::MAX_MECHANISMS);
    let columns = counts::take_columns(counts, rows);
    let read = ReadModel {
        probability_bits,
        detector_counts: &columns.detectors[0..rows],
        observable_counts: &columns.observables[0..rows],
        component_counts: &columns.components[0..rows],
        component_detectors: &columns.component_detectors[0..rows],
        component_observables: &columns.component_observables[0..rows],
        entries,
    };
    graph_of(n, &read, edges)
}
