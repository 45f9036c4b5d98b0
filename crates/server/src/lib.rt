// The C exports, all of them. Each takes numbers and slices, checks what it is handed and answers with a struct by value.
#![tactic(auto)]

ghost use Rattle.std.specs.Prelude.{◌≡◌, length, ◌≤◌};
ghost use Rattle.decoder.specs.Answer.{handed, Decodes};
ghost use Rattle.batch.specs.Batch as batched;
ghost use Rattle.rate.specs.Rate.{compared, Rates};
ghost use Rattle.marker.specs.Answer.{Marks};
ghost use Rattle.dem.specs.Positions.{tables};
ghost use Rattle.decompose.specs.Call as decomposition;
ghost use Rattle.edges.specs.Tables.{slices};
ghost use Rattle.codes.specs.Limits.{max_mechanisms};
ghost use Rattle.server.specs.Lent.{lent_by, lengths_by, CompilesBy, DecomposesBy};
ghost use Rattle.server.specs.Lengths.{within, decode_lengths, decompose_with, decompose_lengths, compile_with, compile_lengths, mark_with, mark_lengths};
ghost use Rattle.server.specs.Words.{InWords, told_of, words_of_model, words_of_graph, words_of_mark, words_of_shot, words_of_batch, words_of_rate};

use adjacency::Neighbor;
use cells::{Flags, Link, Node, Stack, Tables};
use codes::{Checked, Refusal};
use cover::CandidateTables;
use dem::{Model, Output};
use edges::EdgeTables;
use failures::ErrorRate;
use lent_graph::Graph;
use marking::Marking;
use scratch::{Lengths, Scratch};
use shot::Shot;
use split_model::Counts;

// The counts of a lent graph.
#[repr(C)]
#[derive(Clone, Copy)]
pub struct Size {
    pub detectors: usize,
    pub observables: usize,
    pub edges: usize,
}

// What every answer begins with: its code, and the values beside it.
#[derive(Clone, Copy)]
struct Told {
    code: u32,
    first: usize,
    second: usize,
}

// Success has code 0 and no values.
const DONE: Told = Told {
    code: 0,
    first: 0,
    second: 0,
};

impl From<Refusal> for Told {
    ghost from_gives = { λ r t. t ≡ told_of r };

    fn from(r: Refusal) -> Told {
        Told {
            code: r.code() as u32,
            first: r.first_value(),
            second: r.second_value() as usize,
        }
    }
}

// The answer of compiling.
#[repr(C)]
#[derive(Clone, Copy)]
pub struct GraphWords {
    pub code: u32,
    pub first: usize,
    pub second: usize,
    pub edges: usize,
}

impl From<Result<usize, Refusal>> for GraphWords {
    ghost from_gives = { λ a w. w ≡ words_of_graph a };

    fn from(a: Result<usize, Refusal>) -> GraphWords {
        let (told, edges) = match a {
            Ok(edges) => (DONE, edges),
            Err(r) => (Told::from(r), 0),
        };
        GraphWords {
            code: told.code,
            first: told.first,
            second: told.second,
            edges,
        }
    }
}

#[unsafe(no_mangle)]
pub extern "C" fn pavrenni_compile(
    detectors: usize,
    observables: usize,
    mechanisms: usize,
    probability: &[f64],
    detector_counts: &[u8],
    observable_counts: &[u8],
    component_counts: &[u8],
    component_detectors: &[u8],
    component_observables: &[u8],
    entries: &[u32],
    edge_u: &mut [u32],
    edge_v: &mut [u32],
    edge_weight: &mut [f64],
    edge_obs: &mut [u64],
    edge_p: &mut [f64],
    first: &mut [u32],
    next: &mut [u32],
) -> GraphWords
    ensures { InWords words_of_graph (λ a. CompilesBy detectors observables mechanisms
        (tables probability.now detector_counts.now observable_counts.now component_counts.now component_detectors.now component_observables.now entries.now)
        (slices edge_u.old edge_v.old edge_weight.old edge_obs.old edge_p.old) first.old next.old a (slices edge_u.new edge_v.new edge_weight.new edge_obs.new edge_p.new)) result }
{
    let model = Model {
        detectors,
        observables,
        mechanisms,
        probability,
        detector_counts,
        observable_counts,
        component_counts,
        component_detectors,
        component_observables,
        entries,
    };
    let mut edges = EdgeTables {
        edge_u,
        edge_v,
        edge_weight,
        edge_obs,
    };
    let mut s = edges::Scratch {
        edge_p,
        first,
        next,
    };
    GraphWords::from(graph::from_model(&model, &mut edges, &mut s))
}

// The scratch lengths of compiling.
#[repr(C)]
#[derive(Clone, Copy)]
pub struct CompileLengths {
    pub edge_p: usize,
    pub first: usize,
    pub next: usize,
}

// The scratch lengths of the marker.
#[repr(C)]
#[derive(Clone, Copy)]
pub struct MarkLengths {
    pub marks: usize,
    pub wrong: usize,
}

// Whether the counts are within the limits.
fn within(detectors: usize, items: usize) -> bool
    ensures { result ≡ within detectors items }
{
    detectors <= codes::MAX_DETECTORS && items <= codes::MAX_MECHANISMS
}

#[tactic(auto, unfolding(crate::specs::Lengths::decode_lengths))]
#[unsafe(no_mangle)]
pub extern "C" fn pavrenni_lengths_for(detectors: usize, edges: usize) -> Lengths
    ensures { result ≡ decode_lengths detectors edges }
{
    if !within(detectors, edges) {
        return scratch::no_lengths();
    }
    scratch::least_lengths(detectors, edges)
}

fn decompose_lengths(detectors: usize, mechanisms: usize) -> decompose::Lengths
    requires { mechanisms ≤ max_mechanisms }
    ensures { result ≡ decompose_with detectors mechanisms }
{
    let many = 17 * mechanisms;
    decompose::Lengths {
        starts: many,
        before: many,
        last_of: detectors,
        first_of: detectors,
        next_of: mechanisms,
        numbers: mechanisms,
        masks: mechanisms,
        words0: mechanisms,
        words1: mechanisms,
        earlier: mechanisms,
    }
}

#[tactic(auto, unfolding(crate::specs::Lengths::decompose_lengths))]
#[unsafe(no_mangle)]
pub extern "C" fn pavrenni_decompose_lengths_for(
    detectors: usize,
    mechanisms: usize,
) -> decompose::Lengths
    ensures { result ≡ decompose_lengths detectors mechanisms }
{
    if !within(detectors, mechanisms) {
        return decompose_lengths(0, 0);
    }
    decompose_lengths(detectors, mechanisms)
}

fn compile_lengths(detectors: usize, mechanisms: usize) -> CompileLengths
    ensures { result ≡ compile_with detectors mechanisms }
{
    CompileLengths {
        edge_p: mechanisms,
        first: detectors,
        next: mechanisms,
    }
}

#[tactic(auto, unfolding(crate::specs::Lengths::compile_lengths))]
#[unsafe(no_mangle)]
pub extern "C" fn pavrenni_compile_lengths_for(
    detectors: usize,
    mechanisms: usize,
) -> CompileLengths
    ensures { result ≡ compile_lengths detectors mechanisms }
{
    if !within(detectors, mechanisms) {
        return compile_lengths(0, 0);
    }
    compile_lengths(detectors, mechanisms)
}

fn mark_lengths(detectors: usize, edges: usize) -> MarkLengths
    ensures { result ≡ mark_with detectors edges }
{
    MarkLengths {
        marks: bits::words(edges),
        wrong: bits::words(detectors),
    }
}

#[tactic(auto, unfolding(crate::specs::Lengths::mark_lengths))]
#[unsafe(no_mangle)]
pub extern "C" fn pavrenni_mark_lengths_for(detectors: usize, edges: usize) -> MarkLengths
    ensures { result ≡ mark_lengths detectors edges }
{
    if !within(detectors, edges) {
        return mark_lengths(0, 0);
    }
    mark_lengths(detectors, edges)
}

// The answer of the marker: passed is 1 or 0, and where it is 0 the detector is the lowest wrong one.
#[repr(C)]
#[derive(Clone, Copy)]
pub struct MarkWords {
    pub code: u32,
    pub first: usize,
    pub second: usize,
    pub passed: u32,
    pub detector: u32,
}

impl From<Result<Marking, Refusal>> for MarkWords {
    ghost from_gives = { λ a w. w ≡ words_of_mark a };

    fn from(a: Result<Marking, Refusal>) -> MarkWords {
        let (told, passed, detector) = match a {
            Ok(Marking::Pass) => (DONE, 1, 0),
            Ok(Marking::Differs { detector }) => (DONE, 0, detector),
            Err(r) => (Told::from(r), 0, 0),
        };
        MarkWords {
            code: told.code,
            first: told.first,
            second: told.second,
            passed,
            detector,
        }
    }
}

#[unsafe(no_mangle)]
pub extern "C" fn pavrenni_mark(
    size: Size,
    edge_u: &[u32],
    edge_v: &[u32],
    edge_weight: &[f64],
    edge_obs: &[u64],
    shot: &[u64],
    width: usize,
    list: &[u32],
    row: &mut [u64],
    marks: &mut [u64],
    wrong: &mut [u64],
) -> MarkWords
    ensures { InWords words_of_mark (λ a. Marks (lent_by size edge_u.now edge_v.now edge_weight.now edge_obs.now) shot.now width list.now row.old marks.old wrong.old a row.new) result }
{
    let g = Graph {
        detectors: size.detectors,
        observables: size.observables,
        edges: size.edges,
        edge_u,
        edge_v,
        edge_weight,
        edge_obs,
    };
    MarkWords::from(marker::mark(&g, shot, width, list, row, marks, wrong))
}

// The answer to a shot: the rounds finished and the length of the list. Stuck is code 11 with shot 0 and the detector, and has its rounds too.
#[repr(C)]
#[derive(Clone, Copy)]
pub struct ShotWords {
    pub code: u32,
    pub first: usize,
    pub second: usize,
    pub rounds: u32,
    pub length: usize,
}

impl From<Result<Shot, Refusal>> for ShotWords {
    ghost from_gives = { λ a w. w ≡ words_of_shot a };

    fn from(a: Result<Shot, Refusal>) -> ShotWords {
        let (told, rounds, length) = match a {
            Ok(Shot::Decoded { rounds, length }) => (DONE, rounds, length),
            Ok(Shot::Stuck { rounds, detector }) => (
                Told::from(Refusal::Stuck { shot: 0, detector }),
                rounds,
                0,
            ),
            Err(r) => (Told::from(r), 0, 0),
        };
        ShotWords {
            code: told.code,
            first: told.first,
            second: told.second,
            rounds,
            length,
        }
    }
}

// The answer to a batch.
#[repr(C)]
#[derive(Clone, Copy)]
pub struct BatchWords {
    pub code: u32,
    pub first: usize,
    pub second: usize,
}

impl From<Checked> for BatchWords {
    ghost from_gives = { λ a w. w ≡ words_of_batch a };

    fn from(a: Checked) -> BatchWords {
        let told = match a {
            Ok(()) => DONE,
            Err(r) => Told::from(r),
        };
        BatchWords {
            code: told.code,
            first: told.first,
            second: told.second,
        }
    }
}

// A shot decoded. Long for its parameters, one a line.
#[unsafe(no_mangle)]
pub extern "C" fn pavrenni_decode_shot<'a>(
    row: &mut [u64],
    list: &mut [u32],
    adj_offsets: &'a mut [u32],
    adj: &'a mut [Neighbor],
    tree: &'a mut [Node],
    flags: &'a mut [Flags],
    stacks: &'a mut [Stack],
    links: &'a mut [Link],
    growth: &'a mut [f64],
    sat: &'a mut [bool],
    size: Size,
    edge_u: &[u32],
    edge_v: &[u32],
    edge_weight: &[f64],
    edge_obs: &[u64],
    shot: &[u64],
    width: usize,
) -> ShotWords
    ensures { InWords words_of_shot (λ a. Decodes (handed (lent_by size edge_u.now edge_v.now edge_weight.now edge_obs.now) shot.now width row.old list.old (lengths_by adj_offsets.old adj.old tree.old flags.old stacks.old links.old growth.old sat.old)) a list.new row.new) result }
{
    let g = Graph {
        detectors: size.detectors,
        observables: size.observables,
        edges: size.edges,
        edge_u,
        edge_v,
        edge_weight,
        edge_obs,
    };
    let tables = Tables {
        tree,
        flags,
        stacks,
        links,
        growth,
        sat,
    };
    let mut s = Scratch {
        adj_offsets,
        adj,
        tables,
    };
    ShotWords::from(decoder::decode_shot(&g, shot, width, row, list, &mut s))
}

// The answer of decomposition: the mechanisms, components and entries of the new model.
#[repr(C)]
#[derive(Clone, Copy)]
pub struct ModelWords {
    pub code: u32,
    pub first: usize,
    pub second: usize,
    pub mechanisms: usize,
    pub components: usize,
    pub entries: usize,
}

impl From<Result<Counts, Refusal>> for ModelWords {
    ghost from_gives = { λ a w. w ≡ words_of_model a };

    fn from(a: Result<Counts, Refusal>) -> ModelWords {
        let (told, mechanisms, components, entries) = match a {
            Ok(n) => (DONE, n.mechanisms, n.components, n.entries),
            Err(r) => (Told::from(r), 0, 0, 0),
        };
        ModelWords {
            code: told.code,
            first: told.first,
            second: told.second,
            mechanisms,
            components,
            entries,
        }
    }
}

// A model decomposed. Long for its parameters and fields, one a line.
#[unsafe(no_mangle)]
pub extern "C" fn pavrenni_decompose<'a>(
    detectors: usize,
    observables: usize,
    mechanisms: usize,
    probability: &[f64],
    detector_counts: &[u8],
    observable_counts: &[u8],
    component_counts: &[u8],
    component_detectors: &[u8],
    component_observables: &[u8],
    entries: &[u32],
    out_probability: &mut [f64],
    out_detector_counts: &mut [u8],
    out_observable_counts: &mut [u8],
    out_component_counts: &mut [u8],
    out_component_detectors: &mut [u8],
    out_component_observables: &mut [u8],
    out_entries: &mut [u32],
    starts: &'a mut [u32],
    before: &'a mut [u32],
    last_of: &'a mut [u32],
    first_of: &'a mut [u32],
    next_of: &'a mut [u32],
    numbers: &'a mut [u32],
    masks: &'a mut [u16],
    words0: &'a mut [u64],
    words1: &'a mut [u64],
    earlier: &'a mut [u32],
) -> ModelWords
    ensures { InWords words_of_model (λ a. DecomposesBy detectors observables mechanisms
        (tables probability.now detector_counts.now observable_counts.now component_counts.now component_detectors.now component_observables.now entries.now)
        (decomposition.lengths_of starts.old before.old last_of.old first_of.old next_of.old numbers.old masks.old words0.old words1.old earlier.old)
        (tables out_probability.old out_detector_counts.old out_observable_counts.old out_component_counts.old out_component_detectors.old out_component_observables.old out_entries.old) a
        (tables out_probability.new out_detector_counts.new out_observable_counts.new out_component_counts.new out_component_detectors.new out_component_observables.new out_entries.new)) result }
{
    let model = Model {
        detectors,
        observables,
        mechanisms,
        probability,
        detector_counts,
        observable_counts,
        component_counts,
        component_detectors,
        component_observables,
        entries,
    };
    let mut out = Output {
        probability: out_probability,
        detector_counts: out_detector_counts,
        observable_counts: out_observable_counts,
        component_counts: out_component_counts,
        component_detectors: out_component_detectors,
        component_observables: out_component_observables,
        entries: out_entries,
    };
    let candidates = CandidateTables {
        numbers,
        masks,
        words0,
        words1,
        earlier,
    };
    let mut s = decompose::Scratch {
        starts,
        before,
        last_of,
        first_of,
        next_of,
        candidates,
    };
    ModelWords::from(graphlike::decompose_graphlike(&model, &mut out, &mut s))
}

// Packed shots decoded, a row each. Long for its parameters, one a line.
#[unsafe(no_mangle)]
pub extern "C" fn pavrenni_decode_batch<'a>(
    out: &mut [u64],
    list: &mut [u32],
    adj_offsets: &'a mut [u32],
    adj: &'a mut [Neighbor],
    tree: &'a mut [Node],
    flags: &'a mut [Flags],
    stacks: &'a mut [Stack],
    links: &'a mut [Link],
    growth: &'a mut [f64],
    sat: &'a mut [bool],
    size: Size,
    edge_u: &[u32],
    edge_v: &[u32],
    edge_weight: &[f64],
    edge_obs: &[u64],
    rows: &[u64],
    shots: usize,
    width: usize,
) -> BatchWords
    ensures { InWords words_of_batch (λ a. batched.Decodes (batched.handed (lent_by size edge_u.now edge_v.now edge_weight.now edge_obs.now) rows.now shots width out.old (length list.old) (lengths_by adj_offsets.old adj.old tree.old flags.old stacks.old links.old growth.old sat.old)) a out.new) result }
{
    let g = Graph {
        detectors: size.detectors,
        observables: size.observables,
        edges: size.edges,
        edge_u,
        edge_v,
        edge_weight,
        edge_obs,
    };
    let tables = Tables {
        tree,
        flags,
        stacks,
        links,
        growth,
        sat,
    };
    let mut s = Scratch {
        adj_offsets,
        adj,
        tables,
    };
    BatchWords::from(batch::decode_batch(&g, rows, shots, width, out, list, &mut s))
}

// The answer of the rate.
#[repr(C)]
#[derive(Clone, Copy)]
pub struct RateWords {
    pub code: u32,
    pub first: usize,
    pub second: usize,
    pub rate: f64,
}

impl From<ErrorRate> for RateWords {
    ghost from_gives = { λ a w. w ≡ words_of_rate a };

    fn from(a: ErrorRate) -> RateWords {
        let (told, rate) = match a {
            ErrorRate::Rate(rate) => (DONE, rate),
            ErrorRate::Refused(r) => (Told::from(r), 0.0),
        };
        RateWords {
            code: told.code,
            first: told.first,
            second: told.second,
            rate,
        }
    }
}

// The logical error rate. Long for its parameters, one a line.
#[unsafe(no_mangle)]
pub extern "C" fn pavrenni_rate<'a>(
    out: &mut [u64],
    list: &mut [u32],
    adj_offsets: &'a mut [u32],
    adj: &'a mut [Neighbor],
    tree: &'a mut [Node],
    flags: &'a mut [Flags],
    stacks: &'a mut [Stack],
    links: &'a mut [Link],
    growth: &'a mut [f64],
    sat: &'a mut [bool],
    size: Size,
    edge_u: &[u32],
    edge_v: &[u32],
    edge_weight: &[f64],
    edge_obs: &[u64],
    rows: &[u64],
    shots: usize,
    width: usize,
    truth: &[u64],
    true_shots: usize,
    true_width: usize,
) -> RateWords
    ensures { InWords words_of_rate (λ a. Rates (compared (batched.handed (lent_by size edge_u.now edge_v.now edge_weight.now edge_obs.now) rows.now shots width out.old (length list.old) (lengths_by adj_offsets.old adj.old tree.old flags.old stacks.old links.old growth.old sat.old)) truth.now true_shots true_width) a out.new) result }
{
    let g = Graph {
        detectors: size.detectors,
        observables: size.observables,
        edges: size.edges,
        edge_u,
        edge_v,
        edge_weight,
        edge_obs,
    };
    let tables = Tables {
        tree,
        flags,
        stacks,
        links,
        growth,
        sat,
    };
    let mut s = Scratch {
        adj_offsets,
        adj,
        tables,
    };
    RateWords::from(rate::logical_error_rate(
        &g, rows, shots, width, truth, true_shots, true_width, out, list, &mut s,
    ))
}
