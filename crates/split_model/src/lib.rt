// docs/RULES.md, "Decomposition": the model in its tables, decomposed into output tables.
#![tactic(auto)]

ghost use Rattle.std.specs.Prelude.{◌≡◌, ◌+◌, ◌<◌};
ghost use Rattle.cover.specs.Lent.{SameCandidates};
ghost use Rattle.dem.specs.Tables.{model_of, tables_zero};
ghost use Rattle.dem.specs.Lent.{tables_of, tables_out, SameOutput};
ghost use Rattle.dem.specs.Decompose.{decompose};
ghost use Rattle.suggested.specs.Held.{places_of};
ghost use Rattle.suggested.specs.Lent.{SameMechanisms};
ghost use Rattle.splits.specs.Lent.{AfterBy};
ghost use Rattle.split_model.specs.Begun.{Copyable, CopiedKept};
ghost use Rattle.split_model.specs.Lent.{columns_in, BegunBy};

use codes::Refusal;
use cover::{CandidateTables, Index};
use dem::{Model, Output, Place};
use suggested::{Mechanisms, Size};

// The mechanisms, components and entries of a model.
#[derive(Clone, Copy)]
pub struct Counts {
    pub mechanisms: usize,
    pub components: usize,
    pub entries: usize,
}

// Those with 0 to 2 detectors are kept in order, with their components.
pub fn copy_kept(model: &Model, out: &mut Output, starts: &mut [u32]) -> Counts
    requires { Copyable model.now.mechanisms (tables_of model.now) (tables_out out.old) starts.old }
    ensures same { SameOutput out.old out.new }
    ensures copied { CopiedKept model.now.mechanisms (tables_of model.now) (tables_out out.old) starts.old result (tables_out out.new) starts.new }
{
    let kept = kept::copy_column(model, model.probability, out.probability);
    kept::copy_column(model, model.detector_counts, out.detector_counts);
    kept::copy_column(model, model.observable_counts, out.observable_counts);
    kept::copy_column(model, model.component_counts, out.component_counts);
    let components = kept::copy_components(
        model,
        model.component_detectors,
        out.component_detectors,
    );
    kept::copy_components(
        model,
        model.component_observables,
        out.component_observables,
    );
    let listed = kept::copy_entries(model, out.entries, starts);
    Counts {
        mechanisms: kept,
        components,
        entries: listed,
    }
}

// A refusal leaves all output tables zero.
#[tactic(auto, unfolding(dem::specs::Tables::tables_zero))]
pub fn zero_tables(out: &mut Output)
    ensures same { SameOutput out.old out.new }
    ensures zero { tables_out out.new ≡ tables_zero (tables_out out.old) }
{
    out.probability.fill(0.0);
    out.detector_counts.fill(0);
    out.observable_counts.fill(0);
    out.component_counts.fill(0);
    out.component_detectors.fill(0);
    out.component_observables.fill(0);
    out.entries.fill(0);
}

// Each larger mechanism, in order.
pub fn split_all(
    model: &Model,
    index: &Index,
    size: Size,
    room: Size,
    ms: &mut Mechanisms,
    c: &mut CandidateTables,
) -> Result<Size, Refusal>
    requires { BegunBy model.now index.now size room ms.old c.old }
    ensures same { SameMechanisms ms.old ms.new }
    ensures same_candidates { SameCandidates c.old c.new }
    ensures split { AfterBy (decompose (places_of room) (model_of model.now.mechanisms (tables_of model.now))) (columns_in ms.old) result model.now.entries.now ms.new }
{
    let mut place = Place {
        component: 0,
        entry: 0,
    };
    let mut sized = size;
    for i in 0..model.mechanisms {
        let at = place;
        let h = model.head(i);
        place = model.past(h, at);
        if 2 < h.detectors {
            sized = splits::split_one(model, i, h, at, index, sized, room, ms, c)?;
        }
    }
    Ok(sized)
}
