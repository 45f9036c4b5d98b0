// docs/RULES.md, "Decomposition": each larger mechanism, in order, goes one of two ways.
#![tactic(auto)]

ghost use Rattle.std.specs.Prelude.{◌≡◌, List, ◌+◌, ◌<◌, ◌≤◌, length};
ghost use Rattle.dem.specs.Model.{Symptom, ErrorMechanism};
ghost use Rattle.dem.specs.Tables.{Tables};
ghost use Rattle.dem.specs.Decompose.{split_one};
ghost use Rattle.cover.specs.Search.{Answered};
ghost use Rattle.cover.specs.Lent.{SameCandidates};
ghost use Rattle.suggested.specs.Held.{places_of};
ghost use Rattle.suggested.specs.Lent.{HoldsBy, SameMechanisms};
ghost use Rattle.splits.specs.Ready.{counts_suggest, Coverable, Covered, Front};
ghost use Rattle.splits.specs.Lent.{mechanism_of, KeptBy, cover_by, SameLists, LargeBy, ReadyBy, SplittingBy, AfterBy};

use codes::Refusal;
use cover::{CandidateTables, Index, Lists};
use dem::{Mechanism, Model, Place};
use last_equal::Span;
use suggested::{Mechanisms, Size};

// Whether there are components, each of one or two detectors.
fn is_suggested(counts: &[u8]) -> bool
    ensures { result ≡ counts_suggest counts.now }
{
    !counts.is_empty() && counts.iter().all(|d| 1 <= *d && *d <= 2)
}

// The first cover of s by the kept mechanisms, its members at the front of chosen.
fn find_cover(
    entries: &[u32],
    index: &Index,
    s: Span,
    ms: &Mechanisms,
    c: &mut CandidateTables,
    chosen: &mut [u32],
) -> Option<usize>
    requires { Coverable (length index.now.first_of.now) s entries.now × KeptBy index.now entries.now ms.now c.old × (16 ≤ length chosen.old) }
    ensures found { Answered (cover_by index.now s entries.now ms.now) chosen.old result chosen.new }
    ensures same { SameCandidates c.old c.new }
{
    let start = s.at;
    let middle = start + s.detectors as usize;
    let end = middle + s.observables as usize;
    let lists = Lists {
        starts: &*ms.starts,
        detector_counts: &*ms.detector_counts,
        observable_counts: &*ms.observable_counts,
        entries,
    };
    cover::partition_cover(
        &lists,
        index,
        &entries[start..middle],
        &entries[middle..end],
        c,
        chosen,
    )
}

// p is added to each member of the first cover of s, where there is one.
fn add_cover(
    entries: &[u32],
    index: &Index,
    s: Span,
    p: f64,
    ms: &mut Mechanisms,
    c: &mut CandidateTables,
) -> Option<()>
    requires { Coverable (length index.now.first_of.now) s entries.now × KeptBy index.now entries.now ms.old c.old }
    ensures covered { Covered (cover_by index.now s entries.now ms.old) p ms.old.probability.now result ms.new.probability.now }
    ensures kept { SameLists ms.old ms.new }
    ensures same { SameMechanisms ms.old ms.new }
    ensures same_candidates { SameCandidates c.old c.new }
{
    let mut chosen = [0u32; 16];
    let n = find_cover(entries, index, s, ms, c, &mut chosen)?;
    probability::raise_all(&chosen[0..n], p, ms.probability);
    Some(())
}

// Mechanism i goes one of the two ways.
pub fn split_one(
    model: &Model,
    i: usize,
    head: Mechanism,
    place: Place,
    index: &Index,
    size: Size,
    room: Size,
    ms: &mut Mechanisms,
    c: &mut CandidateTables,
) -> Result<Size, Refusal>
    requires { LargeBy (length ms.old.last_of.now) head place model.now × SplittingBy index.now size room model.now.entries.now ms.old c.old }
    ensures split { (so_far : List ErrorMechanism) (was : Tables) (ks : List Symptom) → HoldsBy so_far was size model.now.entries.now ms.old → ReadyBy ks index.now c.old → Front ks so_far → AfterBy (split_one (places_of room) ks i (mechanism_of head place model.now) so_far) was result model.now.entries.now ms.new }
    ensures same { SameMechanisms ms.old ms.new }
    ensures same_candidates { SameCandidates c.old c.new }
{
    let from = place.component;
    let to = from + head.components as usize;
    let s = Span {
        at: place.entry,
        detectors: head.detectors,
        observables: head.observables,
    };
    let p = head.probability;
    if is_suggested(&model.component_detectors[from..to]) {
        let first = Place {
            component: from,
            entry: s.at + (s.detectors as usize + s.observables as usize),
        };
        return suggested::add_components(
            model,
            head.components as usize,
            first,
            p,
            size,
            room,
            ms,
        ).ok_or(Refusal::Limit);
    }
    add_cover(model.entries, index, s, p, ms, c).ok_or(Refusal::NoCover { mechanism: i })?;
    Ok(size)
}
