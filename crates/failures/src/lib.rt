// Shots that fail, and their rate: docs/RULES.md, "The rate".
#![tactic(auto)]

ghost use Rattle.std.specs.Prelude.{◌≡◌, true, cond, length, Ok};
ghost use Rattle.bits.specs.Rows.{words, is_clear};
ghost use Rattle.codes.specs.Order.{and_then};
ghost use Rattle.packed.specs.Packed.{row_at};
ghost use Rattle.failures.specs.Failures.{differs, failures_in, rate_of, shape_of, answer_of, ComparableRow, Comparable};

use codes::{Checked, Refusal};

// kept: docs/DECISIONS.md, "Forms that 01 names": an enum with a case Rate that holds an f64, and a case for a refusal
#[derive(Clone, Copy, Debug, PartialEq)]
pub enum ErrorRate {
    // failures divided by shots
    Rate(f64),
    Refused(Refusal),
}

// Whether two rows differ in an observable. The padding of both is clear, so their words decide.
fn row_differs(observables: usize, predicted: &[u64], actual: &[u64]) -> bool
    requires { (length predicted.now ≡ words observables) × (length actual.now ≡ words observables) × (is_clear observables predicted.now ≡ true) × (is_clear observables actual.now ≡ true) }
    ensures { result ≡ differs observables predicted.now actual.now }
{
    predicted != actual
}

// How much a shot adds to the failures: one, however many of its observables differ.
fn row_fails(observables: usize, w: usize, shot: usize, out: &[u64], truth: &[u64]) -> usize
    requires { ComparableRow observables w shot out.now truth.now }
    ensures { result ≡ cond (differs observables (row_at (words observables) out.now shot) (row_at (words observables) truth.now shot)) 1 0 }
{
    let at = shot * w;
    let end = at + w;
    usize::from(row_differs(observables, &out[at..end], &truth[at..end]))
}

#[tactic(auto, using(crate::proofs::Counting::none, crate::proofs::Counting::more, crate::proofs::Counting::few))]
fn count_failures(observables: usize, shots: usize, out: &[u64], truth: &[u64]) -> usize
    requires { Comparable observables shots out.now truth.now }
    ensures { result ≡ failures_in observables shots out.now truth.now }
{
    let w = bits::words(observables);
    let mut failures = 0;
    for shot in 0..shots {
        failures += row_fails(observables, w, shot, out, truth);
    }
    failures
}

// Failures divided by shots, rounded once: both are below 2^32, so neither loses a digit.
#[tactic(auto, unfolding(crate::specs::Failures::rate_of))]
fn rate_of(observables: usize, failures: u32, shots: u32) -> f64
    ensures { result ≡ rate_of observables failures shots }
{
    if shots == 0 || observables == 0 {
        return 0.0;
    }
    (failures as f64) / (shots as f64)
}

#[tactic(auto, unfolding(crate::specs::Failures::shape_of))]
fn check_shape(observables: usize, shots: usize, true_shots: usize, true_width: usize) -> Checked
    ensures { result ≡ shape_of observables shots true_shots true_width }
{
    if true_shots != shots || true_width != observables {
        return Err(Refusal::Shape);
    }
    Ok(())
}

// What decoding came to (11), then the shape (12), then the rate.
#[tactic(auto, using(crate::proofs::Counting::few, crate::proofs::Counting::shape_fits))]
pub fn rate_answer(
    decoded: Checked,
    observables: usize,
    shots: usize,
    out: &[u64],
    truth: &[u64],
    true_shots: usize,
    true_width: usize,
) -> ErrorRate
    requires { decoded ≡ Ok tt → true_shots ≡ shots → true_width ≡ observables → Comparable observables shots out.now truth.now }
    ensures { result ≡ answer_of (and_then decoded (shape_of observables shots true_shots true_width)) (rate_of observables (failures_in observables shots out.now truth.now) shots) }
{
    match decoded.and(check_shape(observables, shots, true_shots, true_width)) {
        Err(r) => ErrorRate::Refused(r),
        Ok(()) => {
            let failures = count_failures(observables, shots, out, truth);
            ErrorRate::Rate(rate_of(observables, failures as u32, shots as u32))
        }
    }
}
