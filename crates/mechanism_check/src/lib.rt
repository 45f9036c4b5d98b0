// docs/RULES.md, "Models": the check of a mechanism, its lists and then its probability.
#![tactic(auto)]

ghost use Rattle.std.specs.Prelude.{◌≡◌, ◌+◌, ◌≤◌, length, drop};
ghost use Rattle.dem.specs.Model.{list_fits, symptom_fits, symptoms_fit, lists_fit, probability_fits, check_mechanism};
ghost use Rattle.dem.specs.Tables.{components_of};
ghost use Rattle.dem.specs.Positions.{Within, symptom_at};
ghost use Rattle.dem.specs.Lent.{mechanism_in, InsideIn};

use codes::{Checked, Refusal};
use dem::{Mechanism, Model, Place};

// Strictly ascending, below the bound, at most 16 entries.
#[tactic(auto, unfolding(dem::specs::Model::list_fits), using(dem::proofs::Checks::turn_low, dem::proofs::Checks::turn_high, dem::proofs::Checks::turn_next, dem::proofs::Checks::turn_end))]
pub fn check_list(list: &[u32], bound: usize) -> bool
    ensures { result ≡ list_fits bound list.now }
{
    if codes::MAX_ENTRIES < list.len() {
        return false;
    }
    let mut low: usize = 0;
    for x in list {
        let x = *x as usize;
        if x < low || bound <= x {
            return false;
        }
        low = x + 1;
    }
    true
}

// The lists of d detectors and o observables at an entry.
#[tactic(auto, using(dem::proofs::Checks::symptom_parts))]
fn symptom_fits(model: &Model, d: usize, o: usize, at: usize) -> bool
    requires { at + (d + o) ≤ length model.now.entries.now }
    ensures { result ≡ symptom_fits model.now.detectors model.now.observables (symptom_at d o (drop at model.now.entries.now)) }
{
    let middle = at + d;
    let end = middle + o;
    check_list(&model.entries[at..middle], model.detectors)
        && check_list(&model.entries[middle..end], model.observables)
}

// The lists of n components from a place on.
#[tactic(auto, using(dem::proofs::Checks::fit_turn, dem::proofs::Checks::first_inside, dem::proofs::Checks::others_inside))]
fn components_fit(model: &Model, n: usize, place: Place) -> bool
    requires { Within n place.component place.entry model.now.component_detectors.now model.now.component_observables.now model.now.entries.now }
    ensures { result ≡ symptoms_fit model.now.detectors model.now.observables (components_of n (drop place.component model.now.component_detectors.now) (drop place.component model.now.component_observables.now) (drop place.entry model.now.entries.now)) }
{
    let end = place.component + n;
    let mut entry = place.entry;
    for component in place.component..end {
        let d = model.component_detectors[component] as usize;
        let o = model.component_observables[component] as usize;
        if !symptom_fits(model, d, o, entry) {
            return false;
        }
        entry += d + o;
    }
    true
}

// All lists of a mechanism, and the number of its components.
#[tactic(auto, using(dem::proofs::Checks::lists_parts))]
fn lists_fit(model: &Model, head: Mechanism, place: Place) -> bool
    requires { InsideIn model.now head place }
    ensures { result ≡ lists_fit model.now.detectors model.now.observables (mechanism_in model.now head place) }
{
    let d = head.detectors as usize;
    let o = head.observables as usize;
    let n = head.components as usize;
    let first = Place {
        component: place.component,
        entry: place.entry + (d + o),
    };
    symptom_fits(model, d, o, place.entry)
        && n <= codes::MAX_ENTRIES
        && components_fit(model, n, first)
}

// In [0, 1); NaN is not.
#[tactic(auto, unfolding(dem::specs::Model::probability_fits))]
fn probability_fits(p: f64) -> bool
    ensures { result ≡ probability_fits p }
{
    0.0 <= p && p < 1.0
}

// Mechanism i: its lists (5), then its probability (4).
#[tactic(auto, using(dem::proofs::Checks::check_parts))]
pub fn check_mechanism(model: &Model, i: usize, head: Mechanism, place: Place) -> Checked
    requires { InsideIn model.now head place }
    ensures { result ≡ check_mechanism model.now.detectors model.now.observables i (mechanism_in model.now head place) }
{
    if !lists_fit(model, head, place) {
        return Err(Refusal::Index { at: i });
    }
    if !probability_fits(head.probability) {
        return Err(Refusal::Probability { at: i });
    }
    Ok(())
}
