// The test of a call's own slices by their lengths. What an accepted call hands on is in proofs/.
#![tactic(auto)]

ghost use Rattle.std.specs.Prelude.{◌*◌, ◌≡◌, leb};
ghost use Rattle.own_slices.specs.Long.{slices_long};

use scratch::Lengths;

// Whether a row of w words for each shot fits, whatever the counts are: a product that passes 2^64 fits no slice.
fn rows_fit(shots: usize, w: usize, len: usize) -> bool
    ensures { result ≡ leb (shots * w) len }
{
    shots.checked_mul(w).is_some_and(|n| n <= len)
}

// 2, of the call's own slices by their lengths.
pub fn own_long(
    detectors: usize,
    observables: usize,
    edges: usize,
    shots: usize,
    out: usize,
    list: usize,
    have: Lengths,
) -> bool
    ensures { result ≡ slices_long detectors observables edges shots out list have }
{
    rows_fit(shots, bits::words(observables), out)
        && detectors <= list
        && scratch::long(detectors, edges, have)
}
