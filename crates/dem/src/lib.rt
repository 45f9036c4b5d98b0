// docs/RULES.md, "Models": a detector error model in flat tables, read.
#![tactic(auto)]

ghost use Rattle.std.specs.Prelude.{◌≡◌, ◌^◌, ◌≤◌, length};
ghost use Rattle.dem.specs.Positions.{Summed};

// The head of a mechanism: its probability and the lengths of its lists.
#[derive(Clone, Copy)]
pub struct Mechanism {
    pub probability: f64,
    pub detectors: u8,
    pub observables: u8,
    pub components: u8,
}

// Where a mechanism's components and entries begin.
#[derive(Clone, Copy)]
pub struct Place {
    pub component: usize,
    pub entry: usize,
}

// A model in its tables: an entry for each mechanism in the first four, for each component in the next two, and all lists in one.
// kept: C lends a slice for each column, here and in Output
#[derive(Clone, Copy)]
pub struct Model<'a> {
    pub detectors: usize,
    pub observables: usize,
    pub mechanisms: usize,
    pub probability: &'a [f64],
    pub detector_counts: &'a [u8],
    pub observable_counts: &'a [u8],
    pub component_counts: &'a [u8],
    pub component_detectors: &'a [u8],
    pub component_observables: &'a [u8],
    pub entries: &'a [u32],
}

// The tables of a model, lent for writing.
#[derive(Drop)]
pub struct Output<'a> {
    pub probability: &'a mut [f64],
    pub detector_counts: &'a mut [u8],
    pub observable_counts: &'a mut [u8],
    pub component_counts: &'a mut [u8],
    pub component_detectors: &'a mut [u8],
    pub component_observables: &'a mut [u8],
    pub entries: &'a mut [u32],
}

// The sum of a list of bytes.
pub fn sum(counts: &[u8]) -> usize
    requires { length counts.now ≤ 2 ^ 32 }
    ensures { Summed counts.now result }
{
    counts.iter().map(|c| *c as usize).sum()
}

impl Model<'_> {
    ghost use Rattle.std.specs.Prelude.{◌≡◌, ◌+◌, ◌^◌, ◌<◌, ◌≤◌, length};
    ghost use Rattle.dem.specs.Positions.{head_of, place_of};
    ghost use Rattle.dem.specs.Lent.{tables_of, past_in, CountedIn};

    // The head of mechanism i.
    pub fn head(&self, i: usize) -> Mechanism
        requires { (i < length self.now.probability.now) × (i < length self.now.detector_counts.now) × (i < length self.now.observable_counts.now) × (i < length self.now.component_counts.now) }
        ensures { result ≡ head_of i (tables_of self.now) }
    {
        Mechanism {
            probability: self.probability[i],
            detectors: self.detector_counts[i],
            observables: self.observable_counts[i],
            components: self.component_counts[i],
        }
    }

    // The place past a mechanism.
    #[tactic(auto, using(crate::proofs::Positions::past_sums), unfolding(crate::specs::Positions::place_past))]
    pub fn past(&self, head: Mechanism, place: Place) -> Place
        requires { (place.component + head.components ≤ length self.now.component_detectors.now) × (place.component + head.components ≤ length self.now.component_observables.now) × ((past_in self.now head place).entry < 2 ^ 64) }
        ensures { result ≡ past_in self.now head place }
    {
        let from = place.component;
        let to = from + head.components as usize;
        let own = head.detectors as usize + head.observables as usize;
        let theirs = sum(&self.component_detectors[from..to])
            + sum(&self.component_observables[from..to]);
        Place {
            component: to,
            entry: place.entry + (own + theirs),
        }
    }

    // The place past the last mechanism: all components, and all entries.
    #[tactic(auto, using(crate::proofs::Positions::totals_are))]
    pub fn totals(&self) -> Place
        requires { CountedIn self.now }
        ensures { result ≡ place_of self.now.mechanisms (tables_of self.now) }
    {
        let n = self.mechanisms;
        let components = sum(&self.component_counts[0..n]);
        let own = sum(&self.detector_counts[0..n]) + sum(&self.observable_counts[0..n]);
        let theirs = sum(&self.component_detectors[0..components])
            + sum(&self.component_observables[0..components]);
        Place {
            component: components,
            entry: own + theirs,
        }
    }
}
