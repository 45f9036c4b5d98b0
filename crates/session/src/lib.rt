// docs/RULES.md, "Frames": a line of an input answered, and the end of the input. The text goes to the front of a slice, and the answer tells its length.
#![tactic(auto)]

ghost use Rattle.std.specs.Prelude.{◌≡◌, [], ◌+◌, ◌*◌, ◌≤◌, ◌<◌, length};
ghost use Rattle.bits.specs.Rows.{words};
ghost use Rattle.dem.specs.Tables.{written};
ghost use Rattle.edges.specs.Lent.{slices_of, SameEdges};
ghost use Rattle.frames.specs.Frames.{kind_byte};
ghost use Rattle.frames.specs.Input.{at_end};
ghost use Rattle.reader.specs.Lent.{columns_in, SameTables};
ghost use Rattle.replies.specs.Last.{refusal_text, last_text};
ghost use Rattle.std.specs.declared.ops.ControlFlow.TheVariants.{Break, Continue};
ghost use Rattle.session.specs.Output.{begin, one, longest_reply};
ghost use Rattle.session.specs.Kept.{numbers_of, Kept, ReadSome, AnswersKind, AnswersModel, ShotBy, ShotSome, Answers};

use codes::Refusal;
use edges::EdgeTables;
use frames::{Kind, State};
use lent_graph::Graph;
use reader::Tables;
use shot_reply::Reply;
use std::ops::ControlFlow;

// The numbers of a session: of what was read, of the graph from 04 on, of the shots.
#[derive(Clone, Copy)]
pub struct Numbers {
    pub state: State,
    pub edges: usize,
    // of the observables of all edges
    pub words: usize,
    pub shots: u32,
    pub failures: u32,
}

// The numbers after a line, and how many bytes were written.
#[derive(Clone, Copy)]
pub struct On {
    pub numbers: Numbers,
    pub written: usize,
}

// Or how many bytes a refusal has, which ends the output.
pub type Told = ControlFlow<usize, On>;

// The most bytes that a line is answered with: 85 with two words, and 86 with 256 edges.
pub const LONGEST_REPLY: usize = 1066;

// More shots than 8f counts are refused.
const MAX_SHOTS: u32 = 4294967295;

// Before the first line.
pub fn begin() -> Numbers
    ensures { result ≡ numbers_of begin }
{
    Numbers {
        state: frames::start(),
        edges: 0,
        words: 0,
        shots: 0,
        failures: 0,
    }
}

// ff and the code.
fn refuse(r: Refusal, out: &mut [u8]) -> Told
    requires { 5 ≤ length out.old }
    ensures { (result ≡ Break (length (refusal_text r))) × (out.new ≡ written (refusal_text r) out.old) }
{
    ControlFlow::Break(replies::write_refusal(r, out))
}

// ---- 04

// The words of the observables of n edges.
fn words_of(n: usize, observables: usize) -> usize
    requires { (n ≤ 1024) × (observables ≤ 128) }
    ensures { result ≡ n * words observables }
{
    n * bits::words(observables)
}

// The graph of the model.
fn answer_model(
    n: Numbers,
    state: State,
    read: &Tables,
    edges: &mut EdgeTables,
    out: &mut [u8],
) -> Told
    requires { (5 ≤ length out.old) × ReadSome 4 n state (columns_in read.now) (slices_of edges.old []) }
    ensures answers { AnswersModel n state (columns_in read.now) (slices_of edges.old []) result (slices_of edges.new []) out.old out.new }
    ensures same { SameEdges edges.old edges.new }
{
    let compiled = model_graph::model_graph(
        state,
        read.probability_bits,
        read.counts,
        read.entries,
        edges,
    );
    match compiled {
        Err(r) => refuse(r, out),
        Ok(edges) => {
            let words = words_of(edges, state.observables);
            let numbers = Numbers {
                state,
                edges,
                words,
                ..n
            };
            ControlFlow::Continue(On {
                numbers,
                written: 0,
            })
        }
    }
}

// ---- 06

// One shot more.
fn counted(n: Numbers, state: State, reply: Reply) -> Told
    requires { (n.shots < 4294967295) × (n.failures ≤ n.shots) }
    ensures { result ≡ Continue (record { numbers = record { state = state; edges = n.edges; words = n.words; shots = n.shots + 1; failures = n.failures + one reply.failed }; written = reply.written }) }
{
    let shots = n.shots + 1;
    let failures = n.failures + u32::from(reply.failed);
    let numbers = Numbers {
        state,
        shots,
        failures,
        ..n
    };
    ControlFlow::Continue(On {
        numbers,
        written: reply.written,
    })
}

// The lines of a shot.
fn answer_shot(
    n: Numbers,
    state: State,
    row: &[u64],
    truth: &[u64],
    edges: &EdgeTables,
    out: &mut [u8],
) -> Told
    requires { (longest_reply ≤ length out.old) × ShotSome n state row.now truth.now (slices_of edges.now []) }
    ensures { ShotBy n state row.now truth.now (slices_of edges.now []) result out.old out.new }
{
    if n.shots == MAX_SHOTS {
        return refuse(Refusal::Limit, out);
    }
    let graph = Graph {
        detectors: state.detectors,
        observables: state.observables,
        edges: n.edges,
        edge_u: &edges.edge_u[0..n.edges],
        edge_v: &edges.edge_v[0..n.edges],
        edge_weight: &edges.edge_weight[0..n.edges],
        edge_obs: &edges.edge_obs[0..n.words],
    };
    let row_words = bits::words(state.detectors);
    let truth_words = bits::words(state.observables);
    let decoded = shot_reply::shot_reply(&graph, &row[0..row_words], &truth[0..truth_words], out);
    match decoded {
        Err(r) => refuse(r, out),
        Ok(reply) => counted(n, state, reply),
    }
}

// ---- a line

// A line that was read, by its kind.
fn answer_kind(
    kind: Kind,
    n: Numbers,
    state: State,
    read: &Tables,
    edges: &mut EdgeTables,
    out: &mut [u8],
) -> Told
    requires { (longest_reply ≤ length out.old) × ReadSome (kind_byte kind) n state (columns_in read.now) (slices_of edges.old []) }
    ensures answers { AnswersKind (kind_byte kind) n state (columns_in read.now) (slices_of edges.old []) result (slices_of edges.new []) out.old out.new }
    ensures same { SameEdges edges.old edges.new }
{
    match kind {
        Kind::End => answer_model(n, state, read, edges, out),
        Kind::Truth => {
            let row = reader::ROW_WORDS;
            answer_shot(n, state, &read.shot[0..row], &read.shot[row..], edges, out)
        }
        Kind::Header | Kind::Mechanism | Kind::Component | Kind::Row => {
            let numbers = Numbers { state, ..n };
            ControlFlow::Continue(On {
                numbers,
                written: 0,
            })
        }
    }
}

// A line of any bytes.
pub fn answer_line(
    line: &[u8],
    n: Numbers,
    read: &mut Tables,
    edges: &mut EdgeTables,
    out: &mut [u8],
) -> Told
    requires { (longest_reply ≤ length out.old) × Kept n (columns_in read.old) (slices_of edges.old []) }
    ensures answers { Answers line.now n (columns_in read.old) (slices_of edges.old []) result (columns_in read.new) (slices_of edges.new []) out.old out.new }
    ensures same { SameTables read.old read.new × SameEdges edges.old edges.new }
{
    match reader::read_line(line, n.state, read) {
        Err(r) => refuse(r, out),
        Ok((kind, next)) => answer_kind(kind, n, next, read, edges, out),
    }
}

// The end of the input: 8f, or the refusal of an end that comes too early.
pub fn write_end(n: Numbers, out: &mut [u8]) -> usize
    requires { (n.failures ≤ n.shots) × (35 ≤ length out.old) }
    ensures { (result ≡ length (last_text (at_end n.state.stage) n.state.observables n.failures n.shots)) × (out.new ≡ written (last_text (at_end n.state.stage) n.state.observables n.failures n.shots) out.old) }
{
    let end = frames::at_end(n.state);
    replies::write_last(end, n.state.observables, n.failures, n.shots, out)
}
