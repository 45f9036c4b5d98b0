// docs/RULES.md, "Decomposition": every suggested component adds p to the last mechanism with equal lists, or to a new one.
#![tactic(auto)]

ghost use Rattle.std.specs.Prelude.{◌≡◌, List, false, ◌+◌, ◌<◌, length};
ghost use Rattle.dem.specs.Model.{ErrorMechanism};
ghost use Rattle.dem.specs.Tables.{Tables};
ghost use Rattle.dem.specs.Decompose.{add_next, add_components, into};
ghost use Rattle.last_equal.specs.Last.{symptom_in, Component};
ghost use Rattle.suggested.specs.Held.{places_of, place_for};
ghost use Rattle.suggested.specs.Lent.{SameMechanisms, AppendableBy, AppendedBy, HoldsBy, HeldBy, OutcomeBy, RoomyBy, components_at, SuggestedAt};

use cover::Lists;
use dem::{Model, Place};
use last_equal::Span;

// The mechanisms of a model and the entries that they take; the lent places for both.
#[derive(Clone, Copy)]
pub struct Size {
    pub mechanisms: usize,
    pub entries: usize,
}

// The mechanisms so far, kept ones and then appended ones: the starts and lengths of their lists, and their chains.
#[derive(Drop)]
pub struct Mechanisms<'a> {
    pub starts: &'a mut [u32],
    pub detector_counts: &'a mut [u8],
    pub observable_counts: &'a mut [u8],
    pub probability: &'a mut [f64],
    pub last_of: &'a mut [u32],
    pub before: &'a mut [u32],
}

// Whether one more mechanism of so many entries finds its place.
fn has_place(size: Size, room: Size, more: usize) -> bool
    ensures { result ≡ place_for size room more }
{
    size.mechanisms < room.mechanisms
        && size.mechanisms < codes::MAX_MECHANISMS
        && size.entries <= room.entries
        && more <= room.entries - size.entries
}

// A new mechanism with the lists of s, at probability 0 with p added.
fn append(s: Span, p: f64, at: usize, entries: &[u32], ms: &mut Mechanisms)
    requires { AppendableBy s at entries.now ms.old }
    ensures same { SameMechanisms ms.old ms.new }
    ensures appended { AppendedBy s p at entries.now ms.old ms.new }
{
    ms.starts[at] = s.at as u32;
    ms.detector_counts[at] = s.detectors;
    ms.observable_counts[at] = s.observables;
    ms.probability[at] = probability::add_probability(0.0, p);
    // lent by `&mut *`: while a plain `&` of one field lives, the checker lets no other be used
    let lists = Lists {
        starts: &mut *ms.starts,
        detector_counts: &mut *ms.detector_counts,
        observable_counts: &mut *ms.observable_counts,
        entries,
    };
    last_equal::link(&lists, at, ms.last_of, ms.before);
}

// p is added to the last mechanism with the lists of s, or to a new one.
fn add_component(
    s: Span,
    p: f64,
    size: Size,
    room: Size,
    entries: &[u32],
    ms: &mut Mechanisms,
) -> Option<Size>
    requires component { Component (length ms.old.last_of.now) s entries.now }
    requires roomy { RoomyBy 1 size room ms.old }
    requires held { HeldBy size entries.now ms.old }
    ensures same { SameMechanisms ms.old ms.new }
    ensures added { (so_far : List ErrorMechanism) (was : Tables) → HoldsBy so_far was size entries.now ms.old → OutcomeBy (add_next (places_of room) p (symptom_in entries.now s) (into so_far)) was result entries.now ms.new }
{
    let n = size.mechanisms;
    // lent as in `append`
    let lists = Lists {
        starts: &mut *ms.starts,
        detector_counts: &mut *ms.detector_counts,
        observable_counts: &mut *ms.observable_counts,
        entries,
    };
    let found = last_equal::find_last(s, n, &lists, &mut *ms.last_of, &mut *ms.before);
    if let Some(k) = found {
        probability::raise(ms.probability, k, p);
        return Some(size);
    }
    let more = s.detectors as usize + s.observables as usize;
    if !has_place(size, room, more) {
        return None;
    }
    append(s, p, n, entries, ms);
    Some(Size {
        mechanisms: n + 1,
        entries: size.entries + more,
    })
}

// The same of n components from a place on.
pub fn add_components(
    model: &Model,
    n: usize,
    place: Place,
    p: f64,
    size: Size,
    room: Size,
    ms: &mut Mechanisms,
) -> Option<Size>
    requires suggested { SuggestedAt n place (length ms.old.last_of.now) model.now }
    requires roomy { RoomyBy n size room ms.old }
    requires held { HeldBy size model.now.entries.now ms.old }
    ensures same { SameMechanisms ms.old ms.new }
    ensures added { (so_far : List ErrorMechanism) (was : Tables) → HoldsBy so_far was size model.now.entries.now ms.old → OutcomeBy (add_components (places_of room) p (components_at n place model.now) (into so_far)) was result model.now.entries.now ms.new }
{
    let mut entry = place.entry;
    let mut sized = size;
    for component in place.component..place.component + n {
        let s = Span {
            at: entry,
            detectors: model.component_detectors[component],
            observables: model.component_observables[component],
        };
        entry += s.detectors as usize + s.observables as usize;
        sized = add_component(s, p, sized, room, model.entries, ms)?;
    }
    Some(sized)
}
