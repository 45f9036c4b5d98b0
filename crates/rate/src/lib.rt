// The logical error rate of a batch: docs/RULES.md, "The rate" and "Refusals".
#![tactic(auto)]

ghost use Rattle.std.specs.Prelude.{◌≡◌, length};
ghost use Rattle.lent_graph.specs.Graph.{lent};
ghost use Rattle.rate.specs.Checks.{check_both, check_rate};
ghost use Rattle.scratch.specs.Scratch.{lengths_in};
ghost use Rattle.scratch.specs.Lent.{SameScratch};
ghost use Rattle.batch.specs.Batch.{handed};
ghost use Rattle.rate.specs.Rate.{compared, Rates};

use codes::{Checked, Refusal};
use failures::ErrorRate;
use lent_graph::Graph;
use scratch::Scratch;

// 8, 9 of the shots, 8, 9 of the true observables, then 10.
#[tactic(auto, unfolding(crate::specs::Checks::check_both, packed::specs::Packed::packed_of))]
fn check_both(
    detectors: usize,
    rows: &[u64],
    shots: usize,
    width: usize,
    truth: &[u64],
    true_shots: usize,
    true_width: usize,
) -> Checked
    ensures { result ≡ check_both detectors rows.now shots width truth.now true_shots true_width }
{
    packed::try_from_shot_major(rows, shots, width)?;
    packed::try_from_shot_major(truth, true_shots, true_width)?;
    if width != detectors {
        return Err(Refusal::Width);
    }
    Ok(())
}

// 1, 2 (the tables, and whether the call's own slices are long enough), the graph, then both packings and the width.
#[tactic(auto, unfolding(crate::specs::Checks::check_rate), using(codes::proofs::Checks::counts_within, lent_graph::proofs::Laws::long))]
pub fn check_rate(
    g: &Graph,
    long: bool,
    rows: &[u64],
    shots: usize,
    width: usize,
    truth: &[u64],
    true_shots: usize,
    true_width: usize,
) -> Checked
    ensures { result ≡ check_rate (lent g.now) long rows.now shots width truth.now true_shots true_width }
{
    codes::check_counts(g.detectors, g.observables, g.edges)?;
    codes::check_shots(shots)?;
    codes::check_shots(true_shots)?;
    if !lent_graph::tables_long(g) || !long {
        return Err(Refusal::Short);
    }
    lent_graph::check_edges(g)?;
    check_both(
        g.detectors,
        rows,
        shots,
        width,
        truth,
        true_shots,
        true_width,
    )
}

// All checks, in their order, then the shots decoded and their rows compared.
pub fn logical_error_rate(
    g: &Graph,
    rows: &[u64],
    shots: usize,
    width: usize,
    truth: &[u64],
    true_shots: usize,
    true_width: usize,
    out: &mut [u64],
    list: &mut [u32],
    s: &mut Scratch,
) -> ErrorRate
    ensures rates { Rates (compared (handed (lent g.now) rows.now shots width out.old (length list.old) (lengths_in s.old)) truth.now true_shots true_width) result out.new }
    ensures same { SameScratch s.old s.new }
{
    let have = s.lengths();
    let long = own_slices::own_long(
        g.detectors,
        g.observables,
        g.edges,
        shots,
        out.len(),
        list.len(),
        have,
    );
    let checked = check_rate(g, long, rows, shots, width, truth, true_shots, true_width);
    // kept: the answer is no Result (docs/DECISIONS.md, "Forms that 01 names")
    if let Err(r) = checked {
        return ErrorRate::Refused(r);
    }
    let decoded = batch::decode_accepted(g, rows, shots, out, list, s);
    failures::rate_answer(
        decoded,
        g.observables,
        shots,
        out,
        truth,
        true_shots,
        true_width,
    )
}
