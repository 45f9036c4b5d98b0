// The weight of an edge of probability p, ln((1 - p) / p), by a chain of operations that gives the same bits everywhere.
#![tactic(auto)]

ghost use Rattle.std.specs.Prelude.{◌≡◌, ◌<◌, true, false};
ghost use Rattle.std.specs.Float.Ieee as Ieee;
ghost use Rattle.weight.specs.Weight.{one, infinity, coefficient, sum_at, series, logarithm, weight_of};

// 2^52, the place of the exponent in a pattern: below it are the digits.
const EXPONENT: u64 = 0x10_0000_0000_0000;

// The pattern of 1.0, whose exponent is 0 and whose digits are 0.
const ONE: u64 = 0x3ff0_0000_0000_0000;

// Entry i is 1 / (2i + 1), rounded once.
const COEFFICIENTS: [f64; 16] = [
    1.0,
    0.3333333333333333,
    0.2,
    0.14285714285714285,
    0.1111111111111111,
    0.09090909090909091,
    0.07692307692307693,
    0.06666666666666667,
    0.058823529411764705,
    0.05263157894736842,
    0.047619047619047616,
    0.043478260869565216,
    0.04,
    0.037037037037037035,
    0.034482758620689655,
    0.03225806451612903,
];

// The only reader of the table, so that its rule is stated once.
fn coefficient(i: usize) -> f64
    requires { i < 16 }
    ensures { result ≡ coefficient i }
{
    COEFFICIENTS[i]
}

// 1 + s/3 + s^2/5 + .., sixteen terms by Horner's rule.
#[tactic(auto, unfolding(crate::specs::Weight::sum_at), using(crate::proofs::Steps::step, crate::proofs::Steps::done))]
fn sum_at(s: f64) -> f64
    ensures { result ≡ sum_at s }
{
    let mut r = coefficient(15);
    for i in (0..15).rev() {
        r = r * s + coefficient(i);
    }
    r
}

// ln((1 + t) / (1 - t)).
#[tactic(auto, unfolding(crate::specs::Weight::series))]
fn series_at(t: f64) -> f64
    ensures { result ≡ series t }
{
    (2.0 * t) * sum_at(t * t)
}

// ln y, for a finite y above 1: y = m * 2^k is read off its pattern, so that both are exact.
#[tactic(auto, unfolding(crate::specs::Weight::logarithm))]
fn logarithm(y: f64) -> f64
    requires { (Ieee.le y one ≡ false) × (Ieee.lt y infinity ≡ true) }
    ensures { result ≡ logarithm y }
{
    let bits = y.to_bits();
    let m = f64::from_bits(bits % EXPONENT + ONE);
    let k = bits / EXPONENT - 1023;
    (k as f64) * 0.6931471805599453 + series_at((m - 1.0) / (m + 1.0))
}

// The weight of p, of every p: 0 where p is finite and below 0, -0.0, or 0.5 or more; infinity where p is 0, or so small that y is infinite.
// Where p is infinite or a NaN, y is a NaN, and the weight is infinity.
#[tactic(auto, unfolding(crate::specs::Weight::weight_of, crate::specs::Weight::weight_at))]
pub fn weight(p: f64) -> f64
    ensures { result ≡ weight_of p }
{
    let y = (1.0 - p) / p;
    if y <= 1.0 {
        0.0
    } else if y < f64::INFINITY {
        logarithm(y)
    } else {
        f64::INFINITY
    }
}
