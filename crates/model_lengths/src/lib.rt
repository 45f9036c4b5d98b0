// docs/RULES.md, "Refusals", 2: the lengths that decomposition asks of its output tables and its scratch.
#![tactic(auto)]

ghost use Rattle.std.specs.Prelude.{◌≡◌, ◌&&◌, ◌≤◌};
ghost use Rattle.codes.specs.Limits.{max_mechanisms};
ghost use Rattle.dem.specs.Tables.{columns_hold, lists_hold};
ghost use Rattle.dem.specs.Lent.{tables_out};
ghost use Rattle.suggested.specs.Held.{places_of};
ghost use Rattle.decompose.specs.Call.{room_of, scratch_long};

use decompose::Lengths;
use dem::{Output, Place};
use suggested::Size;

// The output tables are long enough for the model given.
#[tactic(auto, unfolding(dem::specs::Tables::columns_hold, dem::specs::Tables::lists_hold))]
pub fn output_long(mechanisms: usize, end: Place, out: &Output) -> bool
    ensures { result ≡ (columns_hold mechanisms (tables_out out.now) && lists_hold end.component end.entry (tables_out out.now)) }
{
    let n = mechanisms;
    let c = end.component;
    let columns = n <= out.probability.len()
        && n <= out.detector_counts.len()
        && n <= out.observable_counts.len()
        && n <= out.component_counts.len();
    let lists = c <= out.component_detectors.len()
        && c <= out.component_observables.len()
        && end.entry <= out.entries.len();
    columns && lists
}

// The lent places of the output tables: mechanisms by the shortest of the four columns, entries by the last table.
pub fn room(out: &Output) -> Size
    ensures { places_of result ≡ room_of (tables_out out.now) }
{
    Size {
        mechanisms: out
            .probability
            .len()
            .min(out.detector_counts.len())
            .min(out.observable_counts.len())
            .min(out.component_counts.len()),
        entries: out.entries.len(),
    }
}

// The scratch slices are long enough: a mechanism may bring 16 more.
#[tactic(auto, unfolding(decompose::specs::Call::scratch_long))]
pub fn scratch_long(detectors: usize, mechanisms: usize, s: Lengths) -> bool
    requires { mechanisms ≤ max_mechanisms }
    ensures { result ≡ scratch_long detectors mechanisms s }
{
    let d = detectors;
    let n = mechanisms;
    let most = 17 * n;
    most <= s.starts
        && most <= s.before
        && d <= s.last_of
        && d <= s.first_of
        && n <= s.next_of
        && n <= s.numbers
        && n <= s.masks
        && n <= s.words0
        && n <= s.words1
        && n <= s.earlier
}
