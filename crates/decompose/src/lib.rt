// docs/RULES.md, "Decomposition": a model in its tables is checked, decomposed into output tables, or refused.
#![tactic(auto)]

ghost use Rattle.std.specs.Prelude.{◌≡◌, ◌++◌, ◌≤◌, length, take};
ghost use Rattle.cover.specs.Lent.{SameCandidates};
ghost use Rattle.dem.specs.Tables.{Tables, symptom_entries, tables_written, written};
ghost use Rattle.dem.specs.Decompose.{kept_of, decompose};
ghost use Rattle.dem.specs.Lent.{tables_out, SameOutput};
ghost use Rattle.suggested.specs.Held.{places_of};
ghost use Rattle.decompose.specs.Made.{Made};
ghost use Rattle.decompose.specs.Lent.{model_in, lengths_in, lists_in, AppendableIn, FinishedIn, BegunIn, RoomyIn, StartableIn, StartedIn, DecomposableIn, SameChains};

use codes::Refusal;
use cover::{CandidateTables, Index, Lists};
use dem::{Model, Output};
use split_model::Counts;
use suggested::{Mechanisms, Size};

// The scratch slices, lent for writing.
#[derive(Drop)]
pub struct Scratch<'a> {
    pub starts: &'a mut [u32],
    pub before: &'a mut [u32],
    pub last_of: &'a mut [u32],
    pub first_of: &'a mut [u32],
    pub next_of: &'a mut [u32],
    pub candidates: CandidateTables<'a>,
}

// Their lengths, which a host asks for too.
#[repr(C)]
#[derive(Clone, Copy)]
pub struct Lengths {
    pub starts: usize,
    pub before: usize,
    pub last_of: usize,
    pub first_of: usize,
    pub next_of: usize,
    pub numbers: usize,
    pub masks: usize,
    pub words0: usize,
    pub words1: usize,
    pub earlier: usize,
}

impl Scratch<'_> {
    pub fn lengths(&self) -> Lengths
        ensures { result ≡ lengths_in self.now }
    {
        Lengths {
            starts: self.starts.len(),
            before: self.before.len(),
            last_of: self.last_of.len(),
            first_of: self.first_of.len(),
            next_of: self.next_of.len(),
            numbers: self.candidates.numbers.len(),
            masks: self.candidates.masks.len(),
            words0: self.candidates.words0.len(),
            words1: self.candidates.words1.len(),
            earlier: self.candidates.earlier.len(),
        }
    }
}

// Where the lists of each mechanism begin in the entries, and the chains of mechanisms with one first detector: from the last one down, and of the kept ones from the first one up.
#[derive(Drop)]
struct ChainTables<'a> {
    starts: &'a mut [u32],
    before: &'a mut [u32],
    last_of: &'a mut [u32],
    first_of: &'a mut [u32],
    next_of: &'a mut [u32],
}

// ---- the appended mechanisms

// The lists of mechanisms `first` to `end`, after the first `at` entries.
fn append_lists(
    first: usize,
    end: usize,
    at: usize,
    ms: &Mechanisms,
    entries: &[u32],
    out: &mut [u32],
)
    requires { AppendableIn ms.now entries.now first end at out.old }
    ensures { out.new ≡ written (take at out.old ++ symptom_entries (lists_in ms.now entries.now first end)) out.old }
{
    let mut to = at;
    for k in first..end {
        let start = ms.starts[k] as usize;
        let size = ms.detector_counts[k] as usize + ms.observable_counts[k] as usize;
        tables::copy_to(&entries[start..start + size], out, to);
        to += size;
    }
}

// The appended mechanisms in the columns and entries that splitting leaves alone.
fn finish(
    kept: Counts,
    size: Size,
    ms: &Mechanisms,
    entries: &[u32],
    component_counts: &mut [u8],
    out: &mut [u32],
) -> Counts
    requires { AppendableIn ms.now entries.now kept.mechanisms size.mechanisms kept.entries out.old × (size.mechanisms ≤ length component_counts.old) }
    ensures { FinishedIn kept size ms.now entries.now component_counts.old out.old result component_counts.new out.new }
{
    let first = kept.mechanisms;
    let end = size.mechanisms;
    component_counts[first..end].fill(0);
    append_lists(first, end, kept.entries, ms, entries, out);
    Counts {
        mechanisms: end,
        components: kept.components,
        entries: size.entries,
    }
}

// Each larger mechanism is split over the kept ones, and what was appended is written.
fn split_kept(
    model: &Model,
    kept: Counts,
    room: Size,
    out: &mut Output,
    x: &mut ChainTables,
    c: &mut CandidateTables,
) -> Result<Counts, Refusal>
    requires begun { BegunIn model.now kept room out.old x.old c.old }
    requires roomy { RoomyIn model.now kept room out.old }
    ensures made { (was : Tables) → tables_out out.old ≡ tables_written (kept_of (model_in model.now)) was → Made (decompose (places_of room) (model_in model.now)) was result (tables_out out.new) }
    ensures same_output { SameOutput out.old out.new }
    ensures same_chains { SameChains x.old x.new }
    ensures same_candidates { SameCandidates c.old c.new }
{
    let size = Size {
        mechanisms: kept.mechanisms,
        entries: kept.entries,
    };
    // lent by `&mut *`: while a plain `&` of one field lives, the checker lets no other be used
    let index = Index {
        kept: kept.mechanisms,
        first_of: &mut *x.first_of,
        next_of: &mut *x.next_of,
    };
    let mut ms = Mechanisms {
        starts: &mut *x.starts,
        detector_counts: &mut *out.detector_counts,
        observable_counts: &mut *out.observable_counts,
        probability: &mut *out.probability,
        last_of: &mut *x.last_of,
        before: &mut *x.before,
    };
    let grown = split_model::split_all(model, &index, size, room, &mut ms, c)?;
    Ok(finish(
        kept,
        grown,
        &ms,
        model.entries,
        out.component_counts,
        out.entries,
    ))
}

// ---- a checked model

// The kept mechanisms are copied, and linked by their first detectors.
fn start(model: &Model, out: &mut Output, x: &mut ChainTables) -> Counts
    requires { StartableIn model.now out.old x.old }
    ensures started { StartedIn model.now out.old x.old result out.new x.new }
    ensures same_output { SameOutput out.old out.new }
    ensures same_chains { SameChains x.old x.new }
{
    let kept = split_model::copy_kept(model, out, x.starts);
    // lent as in `split_kept`
    let lists = Lists {
        starts: &mut *x.starts,
        detector_counts: &mut *out.detector_counts,
        observable_counts: &mut *out.observable_counts,
        entries: model.entries,
    };
    last_equal::index_last(&lists, kept.mechanisms, x.last_of, x.before);
    cover::index_kept(&lists, kept.mechanisms, x.first_of, x.next_of);
    kept
}

// The model is decomposed into the output tables; a refusal leaves them as they are by then.
// kept: the scratch comes slice by slice: two are cut to a place for each detector; it was tried with the struct, but the borrow checker has no rule for a struct made of parts of slices that stand in a lent struct
pub fn decompose_checked(
    model: &Model,
    room: Size,
    out: &mut Output,
    starts: &mut [u32],
    before: &mut [u32],
    last_of: &mut [u32],
    first_of: &mut [u32],
    next_of: &mut [u32],
    c: &mut CandidateTables,
) -> Result<Counts, Refusal>
    requires { DecomposableIn model.now room out.old starts.old before.old last_of.old first_of.old next_of.old c.old }
    ensures made { Made (decompose (places_of room) (model_in model.now)) (tables_out out.old) result (tables_out out.new) }
    ensures same_output { SameOutput out.old out.new }
    ensures same_candidates { SameCandidates c.old c.new }
{
    let d = model.detectors;
    let mut x = ChainTables {
        starts,
        before,
        last_of: &mut last_of[0..d],
        first_of: &mut first_of[0..d],
        next_of,
    };
    let kept = start(model, out, &mut x);
    split_kept(model, kept, room, out, &mut x, c)
}
