// docs/RULES.md, "Growth", step 2: the least step, and the counted edges grown by it.
#![tactic(auto)]

ghost use Rattle.std.specs.Prelude.{◌+◌, ◌*◌, ◌<◌, ◌≡◌, false, length, take, [], ◌∷◌};
ghost use Rattle.std.specs.Float.{inf};
ghost use Rattle.growing.specs.Growing.{share_of, step_from, lesser_of, Growing, least_in, moved_by, reaches_from, Ripened};
ghost use Rattle.cells.specs.Tables.{at_fresh, touched, cnt, fresh, SameLinks};

use cells::Link;

// The lesser of two steps.
// kept: where b is not a number `min` answers s; the steps' definition, which the contract names, has b
pub fn lesser(b: f64, s: f64) -> f64
    ensures { result ≡ lesser_of b s }
{
    if s < b { s } else { b }
}

// Whether an edge of weight w and growth g saturates.
#[tactic(auto, unfolding(steps::specs::Growth::tolerance))]
pub fn reaches(w: f64, g: f64) -> bool
    ensures { result ≡ reaches_from w g }
{
    w <= g + 1e-9
}

// What a difference is multiplied by for n ends: 1, or a half for 2.
pub fn share(n: u32) -> f64
    ensures { result ≡ share_of n }
{
    if n == 2 { 0.5 } else { 1.0 }
}

// The increment that an edge of weight w and growth g gives, with n ends counted. A half is exact, so the product is the quotient by n.
pub fn step_at(w: f64, g: f64, n: u32) -> f64
    ensures { result ≡ step_from w g n }
{
    (w - g) * share(n)
}

// Step 2: the least step of the m edges; infinity where there is none. The edge that gives it reaches its weight as it grows, so it is not kept.
// kept: a minimum by `lesser`
pub fn least(links: &[Link], m: usize, edge_weight: &[f64], growth: &[f64]) -> f64
    requires growing { Growing (touched links.now) (cnt links.now) m (length edge_weight.now) }
    requires growth_len { length growth.now ≡ length edge_weight.now }
    ensures { result ≡ least_in edge_weight.now growth.now (inf false) (take m (touched links.now)) (take m (cnt links.now)) }
{
    let mut b = f64::INFINITY;
    for link in &links[..m] {
        let x = link.touched as usize;
        b = lesser(b, step_at(edge_weight[x], growth[x], link.count));
    }
    b
}

// The growth g after the step, with n ends counted. A product, and no choice of two values, which would be a branch.
pub fn moved(g: f64, n: u32, step: f64) -> f64
    ensures { result ≡ moved_by step g n }
{
    g + (n as f64) * step
}

// Step 2: moves the growth of the m edges on by the step, once for each end that is counted, and lists those that reach their weight. Each edge is written before it is known whether it is listed, since that cannot be foretold.
pub fn grow(
    links: &mut [Link],
    m: usize,
    step: f64,
    edge_weight: &[f64],
    growth: &mut [f64],
) -> usize
    requires growing { Growing (touched links.old) (cnt links.old) m (length edge_weight.now) }
    requires growth_len { length growth.old ≡ length edge_weight.now }
    ensures { Ripened step edge_weight.now growth.old (take m (touched links.old)) (take m (cnt links.old)) m growth.new (fresh links.new) result
        × SameLinks (at_fresh ∷ []) links.old links.new }
{
    let mut k = 0;
    for i in 0..m {
        let e = links[i].touched;
        let x = e as usize;
        let now = moved(growth[x], links[i].count, step);
        growth[x] = now;
        let done = reaches(edge_weight[x], now);
        links[k].fresh = e;
        k += done as usize;
    }
    k
}
