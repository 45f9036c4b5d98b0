// docs/RULES.md, "Decomposition" and "Refusals": the call, with its refusals in their order.
#![tactic(auto)]

ghost use Rattle.std.specs.Prelude.{◌≡◌};
ghost use Rattle.dem.specs.Lent.{tables_out, SameOutput};
ghost use Rattle.decompose.specs.Call.{Decomposes};
ghost use Rattle.decompose.specs.Lent.{SameScratch};
ghost use Rattle.decompose.specs.Made.{Made};
ghost use Rattle.graphlike.specs.Lent.{checked_in, outcome_in};

use codes::{Checked, Refusal};
use decompose::{Lengths, Scratch};
use dem::{Model, Output};
use split_model::Counts;

// The limits (1), all lengths (2), then all mechanisms in order.
#[tactic(auto, unfolding(decompose::specs::Call::checked, decompose::specs::Call::long), using(codes::proofs::Checks::counts_within, codes::proofs::Checks::unless_accepted))]
fn check(model: &Model, out: &Output, scratch: Lengths) -> Checked
    ensures { result ≡ checked_in model.now out.now scratch }
{
    codes::check_counts(model.detectors, model.observables, model.mechanisms)?;
    model_tables::check_tables(model)?;
    let end = model.totals();
    if !model_lengths::output_long(model.mechanisms, end, out) {
        return Err(Refusal::Short);
    }
    if !model_lengths::scratch_long(model.detectors, model.mechanisms, scratch) {
        return Err(Refusal::Short);
    }
    model_tables::check_mechanisms(model)
}

// The model, checked and then decomposed; a refusal leaves the output tables as they are by then.
fn try_decompose(model: &Model, out: &mut Output, s: &mut Scratch) -> Result<Counts, Refusal>
    ensures made { Made (outcome_in model.now out.old s.old) (tables_out out.old) result (tables_out out.new) }
    ensures same_output { SameOutput out.old out.new }
    ensures same_scratch { SameScratch s.old s.new }
{
    check(model, out, s.lengths())?;
    let room = model_lengths::room(out);
    decompose::decompose_checked(
        model,
        room,
        out,
        s.starts,
        s.before,
        s.last_of,
        s.first_of,
        s.next_of,
        &mut s.candidates,
    )
}

// The model with only mechanisms of at most two detectors; a refusal leaves every output table zero, whole. The scratch may hold anything, and anything is left.
pub fn decompose_graphlike(
    model: &Model,
    out: &mut Output,
    s: &mut Scratch,
) -> Result<Counts, Refusal>
    ensures answer { Decomposes (outcome_in model.now out.old s.old) result (tables_out out.old) (tables_out out.new) }
    ensures same_output { SameOutput out.old out.new }
    ensures same_scratch { SameScratch s.old s.new }
{
    let answer = try_decompose(model, out, s);
    if answer.is_err() {
        split_model::zero_tables(out);
    }
    answer
}
