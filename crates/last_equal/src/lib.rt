// docs/RULES.md, "Decomposition": the last mechanism with equal lists, by chains of the mechanisms with the same first detector.
#![tactic(auto)]

ghost use Rattle.std.specs.Prelude.{◌≡◌, ◌+◌, ◌≤◌, length};
ghost use Rattle.dem.specs.Decompose.{same_list, same_symptom};
ghost use Rattle.cover.specs.Search.{highest};
ghost use Rattle.cover.specs.Lent.{detectors_of, symptom_of, HasLists, DetectorsBy};
ghost use Rattle.last_equal.specs.Last.{symptom_in, Chained};
ghost use Rattle.last_equal.specs.Lent.{LinkableBy, FindableBy};

use cover::Lists;

// The two lists of a mechanism or a component: where they begin in the entries, and their lengths.
#[derive(Clone, Copy)]
pub struct Span {
    pub at: usize,
    pub detectors: u8,
    pub observables: u8,
}

// Whether two lists are equal.
// kept: by places; `==` of slices calls a comparison by groups of entries, which takes longer for these few and is asked for each mechanism of a chain
pub fn same_list(a: &[u32], b: &[u32]) -> bool
    ensures { result ≡ same_list a.now b.now }
{
    if a.len() != b.len() {
        return false;
    }
    for i in 0..a.len() {
        if a[i] != b[i] {
            return false;
        }
    }
    true
}

// Whether mechanism k has the lists of s.
#[tactic(auto, unfolding(dem::specs::Decompose::same_symptom))]
pub fn same_at(lists: &Lists, k: usize, s: Span) -> bool
    requires { (s.at + s.detectors + s.observables ≤ length lists.now.entries.now) × HasLists lists.now k }
    ensures { result ≡ same_symptom (symptom_of lists.now k) (symptom_in lists.now.entries.now s) }
{
    let a0 = lists.starts[k] as usize;
    let a1 = a0 + lists.detector_counts[k] as usize;
    let a2 = a1 + lists.observable_counts[k] as usize;
    let b0 = s.at;
    let b1 = b0 + s.detectors as usize;
    let b2 = b1 + s.observables as usize;
    same_list(&lists.entries[a0..a1], &lists.entries[b0..b1])
        && same_list(&lists.entries[a1..a2], &lists.entries[b1..b2])
}

// Mechanism k is linked in, where it has a detector.
// kept: the chains are in lent tables of u32, whose layout C shares, so none is a number there, 0, and mechanism k is k + 1
pub fn link(lists: &Lists, k: usize, last_of: &mut [u32], before: &mut [u32])
    requires { LinkableBy lists.now k last_of.old before.old }
    ensures { Chained (detectors_of lists.now) (k + 1) last_of.new before.new }
{
    if 0 < lists.detector_counts[k] {
        let start = lists.starts[k] as usize;
        let d = lists.entries[start] as usize;
        before[k] = last_of[d];
        last_of[d] = (k + 1) as u32;
    }
}

// The chains of the kept mechanisms.
pub fn index_last(lists: &Lists, kept: usize, last_of: &mut [u32], before: &mut [u32])
    requires { DetectorsBy lists.now kept (length last_of.old) × (kept ≤ length before.old) }
    ensures { Chained (detectors_of lists.now) kept last_of.new before.new }
{
    last_of.fill(0);
    for k in 0..kept {
        link(lists, k, last_of, before);
    }
}

// The last of the first `mechanisms` with the lists of s.
pub fn find_last(
    s: Span,
    mechanisms: usize,
    lists: &Lists,
    last_of: &[u32],
    before: &[u32],
) -> Option<usize>
    requires { FindableBy s mechanisms lists.now last_of.now before.now }
    ensures { result ≡ highest (λ k. same_symptom (symptom_of lists.now k) (symptom_in lists.now.entries.now s)) mechanisms }
{
    let d = lists.entries[s.at] as usize;
    let mut next = last_of[d] as usize;
    // kept: a walk along a chain, each next place read from a table: a `for` would need an iterator of its own
    while 0 < next {
        let k = next - 1;
        if same_at(lists, k, s) {
            return Some(k);
        }
        next = before[k] as usize;
    }
    None
}
