// docs/RULES.md, "Frames": the model that was read, its probabilities from their bits, and its check at 04.
#![tactic(auto)]

ghost use Rattle.std.specs.Prelude.{Err, ◌≡◌, ◌≤◌, length, replicate, false, pos};
ghost use Rattle.std.specs.Float.{fin};
ghost use Rattle.model_check.specs.Bits.{probability_of};
ghost use Rattle.model_check.specs.ModelCheck.{from_bits};
ghost use Rattle.model_check.specs.Lent.{ReadChecked};

use codes::{Checked, Refusal};
use dem::Model;
use frames::State;
use std::num::f64_from_bits_with_nan;

// A model in the tables that its lines brought it in: dem::Model, with its probabilities by their bits.
#[derive(Clone, Copy)]
pub struct ReadModel<'a> {
    pub probability_bits: &'a [u64],
    pub detector_counts: &'a [u8],
    pub observable_counts: &'a [u8],
    pub component_counts: &'a [u8],
    pub component_detectors: &'a [u8],
    pub component_observables: &'a [u8],
    pub entries: &'a [u32],
}

// The number that bits stand for, and 2.0 for a NaN's.
#[tactic(auto, using(crate::proofs::Bits::by_number))]
pub fn probability_of(bits: u64) -> f64
    ensures { result ≡ probability_of bits }
{
    let x = f64_from_bits_with_nan(bits);
    if x.is_nan() { 2.0 } else { x }
}

// A column of n from its bits.
pub fn probabilities(bits: &[u64], n: usize, out: &mut [f64])
    requires { (n ≤ length bits.now) × (n ≤ length out.old) }
    ensures { out.new ≡ from_bits n bits.now out.old }
{
    for i in 0..n {
        out[i] = probability_of(bits[i]);
    }
}

// A refusal leaves the column zero, whole.
fn refuse(r: Refusal, probability: &mut [f64]) -> Checked
    ensures { (result ≡ Err r) × (probability.new ≡ replicate (length probability.old) (fin false 0 (pos 0))) }
{
    probability.fill(0.0);
    Err(r)
}

// The probabilities from their bits, then the check of the model.
pub fn check_read(n: State, read: &ReadModel, probability: &mut [f64]) -> Checked
    ensures { ReadChecked n read.now probability.old result probability.new }
{
    let mechanisms = n.mechanisms;
    if read.probability_bits.len() < mechanisms || probability.len() < mechanisms {
        return refuse(Refusal::Short, probability);
    }
    probabilities(read.probability_bits, mechanisms, probability);
    let model = Model {
        detectors: n.detectors,
        observables: n.observables,
        mechanisms,
        probability: &*probability,
        detector_counts: read.detector_counts,
        observable_counts: read.observable_counts,
        component_counts: read.component_counts,
        component_detectors: read.component_detectors,
        component_observables: read.component_observables,
        entries: read.entries,
    };
    match model_tables::check_model(&model) {
        Err(r) => refuse(r, probability),
        Ok(()) => Ok(()),
    }
}
