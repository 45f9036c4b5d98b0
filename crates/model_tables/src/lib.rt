// docs/RULES.md, "Models": the tables of a model, as long as their counts tell, and every mechanism in them checked.
#![tactic(auto)]

ghost use Rattle.std.specs.Prelude.{◌≡◌, true, not, ◌≤◌};
ghost use Rattle.codes.specs.declared.Refusal.TheVariants.{Short};
ghost use Rattle.codes.specs.Order.{refuse_if};
ghost use Rattle.codes.specs.Limits.{max_mechanisms};
ghost use Rattle.dem.specs.Model.{check_model};
ghost use Rattle.dem.specs.Tables.{model_of, columns_hold, tables_hold};
ghost use Rattle.dem.specs.Check.{check_all};
ghost use Rattle.dem.specs.Lent.{tables_of};

use codes::{Checked, Refusal};
use dem::{Model, Place};

// An entry in each column for each mechanism.
#[tactic(auto, unfolding(dem::specs::Tables::columns_hold))]
fn columns_hold(model: &Model) -> bool
    ensures { result ≡ columns_hold model.now.mechanisms (tables_of model.now) }
{
    let n = model.mechanisms;
    n <= model.probability.len()
        && n <= model.detector_counts.len()
        && n <= model.observable_counts.len()
        && n <= model.component_counts.len()
}

// The tables hold the mechanisms that their counts tell of, or 2.
#[tactic(auto, using(dem::proofs::Positions::lengths, dem::proofs::Positions::tables_parts))]
pub fn check_tables(model: &Model) -> Checked
    requires { model.now.mechanisms ≤ max_mechanisms }
    ensures { result ≡ refuse_if (not (tables_hold model.now.mechanisms (tables_of model.now))) Short }
{
    if !columns_hold(model) {
        return Err(Refusal::Short);
    }
    let components = dem::sum(&model.component_counts[0..model.mechanisms]);
    if model.component_detectors.len() < components
        || model.component_observables.len() < components
    {
        return Err(Refusal::Short);
    }
    let end = model.totals();
    if model.entries.len() < end.entry {
        return Err(Refusal::Short);
    }
    Ok(())
}

// Each mechanism of tables that hold them, in order.
pub fn check_mechanisms(model: &Model) -> Checked
    requires { tables_hold model.now.mechanisms (tables_of model.now) ≡ true }
    ensures { result ≡ check_model model.now.detectors model.now.observables 0 (model_of model.now.mechanisms (tables_of model.now)) }
{
    let mut place = Place {
        component: 0,
        entry: 0,
    };
    for i in 0..model.mechanisms {
        let h = model.head(i);
        mechanism_check::check_mechanism(model, i, h, place)?;
        place = model.past(h, place);
    }
    Ok(())
}

// The limits (1), the tables (2), then each mechanism in order.
#[tactic(auto, using(codes::proofs::Checks::counts_within, codes::proofs::Checks::unless_accepted))]
pub fn check_model(model: &Model) -> Checked
    ensures { result ≡ check_all model.now.detectors model.now.observables model.now.mechanisms (tables_of model.now) }
{
    codes::check_counts(model.detectors, model.observables, model.mechanisms)?;
    check_tables(model)?;
    check_mechanisms(model)
}
