// docs/RULES.md, "Refusals": what a call refuses with, and the limits.
// The Rust has one error for all of these, `PrismError::InvalidParameter`, with a text; here the case is the message.
#![tactic(auto)]

ghost use Rattle.std.specs.Prelude.{◌≡◌};
ghost use Rattle.codes.specs.Codes.{code_of, first_of, second_of};
ghost use Rattle.codes.specs.Limits.{over, check_counts, check_shots};

// A case for each code, with the values that its row names.
#[derive(Clone, Copy, Debug, PartialEq, Eq)]
pub enum Refusal {
    // 1: a count over its limit, or a decomposed model that finds no place
    Limit,
    // 2: a table, list, output or scratch slice shorter than the counts need
    Short,
    // 3: frame digits, kind, length or order
    Frame,
    // 4: the probability of a mechanism, or the weight of an edge of a lent graph
    Probability { at: usize },
    // 5: a list of a mechanism, or an edge of a lent graph
    Index { at: usize },
    // 6: a mechanism with no cover
    NoCover { mechanism: usize },
    // 7: a mechanism of over two detectors
    NotGraphlike { mechanism: usize },
    // 8: the length of the row data
    Length,
    // 9: a shot whose padding is set
    Padding { shot: usize },
    // 10: a width that differs from the number of detectors
    Width,
    // 11: a shot that no set of edges explains, and the detector that names its cluster
    Stuck { shot: usize, detector: u32 },
    // 12: the shape of the true observables
    Shape,
    // 13: an edge of a correction list that is unknown or repeated
    Edge,
}

// What a check comes to.
pub type Checked = Result<(), Refusal>;

pub const MAX_DETECTORS: usize = 4096;

pub const MAX_OBSERVABLES: usize = 128;
// of a model, before and after decomposition; of edges too, since each comes from a mechanism
pub const MAX_MECHANISMS: usize = 16384;
// of a list of detectors or of observables, and of a mechanism's suggested components
pub const MAX_ENTRIES: usize = 16;

pub const MAX_SHOTS: usize = 16777216;

impl Refusal {
    // The number that the marking sheet has for the case.
    pub fn code(self) -> u8
        ensures { result ≡ code_of self }
    {
        match self {
            Refusal::Limit => 1,
            Refusal::Short => 2,
            Refusal::Frame => 3,
            Refusal::Probability { .. } => 4,
            Refusal::Index { .. } => 5,
            Refusal::NoCover { .. } => 6,
            Refusal::NotGraphlike { .. } => 7,
            Refusal::Length => 8,
            Refusal::Padding { .. } => 9,
            Refusal::Width => 10,
            Refusal::Stuck { .. } => 11,
            Refusal::Shape => 12,
            Refusal::Edge => 13,
        }
    }

    // The mechanism, edge or shot of the case, and 0 where its row names none.
    pub fn first_value(self) -> usize
        ensures { result ≡ first_of self }
    {
        match self {
            Refusal::Probability { at } | Refusal::Index { at } => at,
            Refusal::NoCover { mechanism } | Refusal::NotGraphlike { mechanism } => mechanism,
            Refusal::Padding { shot } | Refusal::Stuck { shot, .. } => shot,
            _ => 0,
        }
    }

    // The detector of the case, and 0 where its row names none.
    pub fn second_value(self) -> u32
        ensures { result ≡ second_of self }
    {
        match self {
            Refusal::Stuck { detector, .. } => detector,
            _ => 0,
        }
    }
}

// 1, where there are more than the limit.
fn over(limit: usize, n: usize) -> Checked
    ensures { result ≡ over limit n }
{
    if limit < n {
        Err(Refusal::Limit)
    } else {
        Ok(())
    }
}

// The limits of a model or of a lent graph: items are its mechanisms or its edges.
#[tactic(auto, unfolding(crate::specs::Limits::check_counts))]
pub fn check_counts(detectors: usize, observables: usize, items: usize) -> Checked
    ensures { result ≡ check_counts detectors observables items }
{
    over(MAX_DETECTORS, detectors)?;
    over(MAX_OBSERVABLES, observables)?;
    over(MAX_MECHANISMS, items)
}

// The limit of a batch.
#[tactic(auto, unfolding(crate::specs::Limits::check_shots))]
pub fn check_shots(shots: usize) -> Checked
    ensures { result ≡ check_shots shots }
{
    over(MAX_SHOTS, shots)
}
