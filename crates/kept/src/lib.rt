// docs/RULES.md, "Decomposition": the kept mechanisms are copied, column by column.
#![tactic(auto)]

ghost use Rattle.std.specs.Prelude.{◌+◌, ◌<◌, ◌≤◌, length};
ghost use Rattle.dem.specs.Lent.{tables_of};
ghost use Rattle.kept.specs.Columns.{kept_column, Copied, Sized, Listed};
ghost use Rattle.kept.specs.Lent.{component_total, component_column};

use dem::{Model, Place};

// of a kept mechanism
const MOST_DETECTORS: u8 = 2;

// ---- the columns

// A column of the kept mechanisms, and how many they are.
pub fn copy_column<T: Copy>(model: &Model, column: &[T], out: &mut [T]) -> usize
    requires { (model.now.mechanisms ≤ length model.now.detector_counts.now) × (model.now.mechanisms ≤ length column.now) × (model.now.mechanisms ≤ length out.old) }
    ensures { (z : T) → Copied (kept_column z model.now.mechanisms model.now.detector_counts.now column.now) out.old result out.new }
{
    let mut at = 0;
    for i in 0..model.mechanisms {
        if model.detector_counts[i] <= MOST_DETECTORS {
            out[at] = column[i];
            at += 1;
        }
    }
    at
}

// A column of the components of the kept mechanisms.
#[tactic(auto, using(crate::proofs::Sums::sum_next, crate::proofs::Sums::sum_upto))]
pub fn copy_components(model: &Model, counts: &[u8], out: &mut [u8]) -> usize
    requires { (model.now.mechanisms ≤ length model.now.detector_counts.now) × (model.now.mechanisms ≤ length model.now.component_counts.now) × (component_total model.now ≤ length counts.now) × (component_total model.now ≤ length out.old) }
    ensures { Copied (component_column model.now counts.now) out.old result out.new }
{
    let mut at = 0;
    let mut end = 0;
    for i in 0..model.mechanisms {
        let start = end;
        end += model.component_counts[i] as usize;
        if model.detector_counts[i] <= MOST_DETECTORS {
            tables::copy_to(&counts[start..end], out, at);
            at += end - start;
        }
    }
    at
}

// The entries of the kept mechanisms; starts has where each begins in the tables given.
#[tactic(auto, using(dem::proofs::Positions::entries_le))]
pub fn copy_entries(model: &Model, out: &mut [u32], starts: &mut [u32]) -> usize
    requires { Sized model.now.mechanisms (tables_of model.now) out.old starts.old }
    ensures { Listed model.now.mechanisms (tables_of model.now) out.old starts.old result out.new starts.new }
{
    let mut place = Place {
        component: 0,
        entry: 0,
    };
    let mut kept = 0;
    let mut at = 0;
    for i in 0..model.mechanisms {
        let h = model.head(i);
        let start = place.entry;
        place = model.past(h, place);
        let end = place.entry;
        if h.detectors <= MOST_DETECTORS {
            starts[kept] = start as u32;
            kept += 1;
            tables::copy_to(&model.entries[start..end], out, at);
            at += end - start;
        }
    }
    at
}
