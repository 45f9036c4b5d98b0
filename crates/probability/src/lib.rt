// docs/RULES.md, "Decomposition": adding p to q is q·(1-p) + p·(1-q), each operation rounded once.
#![tactic(auto)]

ghost use Rattle.std.specs.Prelude.{◌≡◌, ℕ, ◌+◌, ◌<◌, length, get_or};
ghost use Rattle.dem.specs.Decompose.{plus};
ghost use Rattle.probability.specs.Probability.{raised_at, raised_all};

// q·(1-p) + p·(1-q), each operation rounded once.
#[tactic(auto, unfolding(dem::specs::Decompose::plus))]
pub fn add_probability(q: f64, p: f64) -> f64
    ensures { result ≡ plus q p }
{
    q * (1.0 - p) + p * (1.0 - q)
}

// p is added to entry k.
#[tactic(auto, unfolding(crate::specs::Probability::raised_at))]
pub fn raise(probability: &mut [f64], k: usize, p: f64)
    requires { k < length probability.old }
    ensures { probability.new ≡ raised_at p k probability.old }
{
    probability[k] = add_probability(probability[k], p);
}

// And to each of a list of entries, in order.
#[tactic(auto, using(crate::proofs::Raising::raise_turn, crate::proofs::Raising::raise_end))]
pub fn raise_all(members: &[u32], p: f64, probability: &mut [f64])
    requires { (i : ℕ) → i < length members.now → get_or members.now i 0 < length probability.old }
    ensures { probability.new ≡ raised_all p members.now probability.old }
{
    for k in members {
        raise(probability, *k as usize, p);
    }
}
