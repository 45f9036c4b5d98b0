// The passes of marking: docs/RULES.md, "Marking". A list is judged against a shot, and the row of its observables is written.
#![tactic(auto)]

ghost use Rattle.std.specs.Prelude.{◌≡◌, true, ◌*◌, ◌/◌, ◌<◌, ◌≤◌, length};
ghost use Rattle.bits.specs.Rows.{set_bits};
ghost use Rattle.steps.specs.Graph.{boundary};
ghost use Rattle.steps.specs.Marker.{fit, mark};
ghost use Rattle.steps.specs.Call.{lit_of};
ghost use Rattle.marking.specs.Passes.{flip_ends, wrong_after, lowest_of, xor_rows, InTable};
ghost use Rattle.marking.specs.Lent.{ends_in, UnmetIn, ReadyIn};
ghost use Rattle.marking.specs.Answer.{marking_of};

use codes::Refusal;
use lent_graph::Graph;

// kept: the scope names the cases Pass and Differs
#[derive(Clone, Copy)]
pub enum Marking {
    // each edge is known and stands once, and they flip the lit detectors
    Pass,
    // the lowest wrong detector
    Differs { detector: u32 },
}

// Flips the ends of an edge; the boundary is no detector.
#[tactic(auto, unfolding(crate::specs::Passes::flip_ends, bits::specs::Rows::flip_bit))]
fn flip_ends(wrong: &mut [u64], u: u32, v: u32)
    requires { (u / 64 < length wrong.old) × ((v ≡ boundary → ⊥) → v / 64 < length wrong.old) }
    ensures { wrong.new ≡ flip_ends wrong.old u v }
{
    bits::flip(wrong, u as usize);
    if v == lent_graph::BOUNDARY {
        return;
    }
    bits::flip(wrong, v as usize);
}

// Whether each listed edge is known and none stands twice; from the last one back, each is marked and its ends are flipped.
fn meet(g: &Graph, list: &[u32], marks: &mut [u64], wrong: &mut [u64]) -> bool
    requires { UnmetIn g.now marks.old wrong.old }
    ensures known { result ≡ fit (ends_in g.now) list.now }
    ensures flips { result ≡ true → wrong.new ≡ wrong_after (ends_in g.now) wrong.old list.now }
{
    for e in list.iter().rev() {
        let e = *e as usize;
        if g.edges <= e {
            return false;
        }
        if bits::get(marks, e) {
            return false;
        }
        bits::set(marks, e);
        flip_ends(wrong, g.edge_u[e], g.edge_v[e]);
    }
    true
}

// The lowest set bit of a row, word by word, if any is set.
#[tactic(auto, using(crate::proofs::LowestBit::lowest_start, crate::proofs::LowestBit::lowest_zero, crate::proofs::LowestBit::lowest_here, crate::proofs::LowestBit::lowest_end))]
fn lowest(row: &[u64]) -> Option<u32>
    requires { length row.now ≤ 64 }
    ensures { result ≡ lowest_of (set_bits (64 * length row.now) row.now) }
{
    for (i, word) in row.iter().enumerate() {
        if *word != 0 {
            let base = (i * 64) as u32;
            return Some(base + word.trailing_zeros());
        }
    }
    None
}

// The list against the shot.
pub fn judge(
    g: &Graph,
    shot: &[u64],
    list: &[u32],
    marks: &mut [u64],
    wrong: &mut [u64],
) -> Result<Marking, Refusal>
    requires { ReadyIn g.now shot.now marks.old wrong.old }
    ensures { result ≡ marking_of (mark (ends_in g.now) (lit_of g.now.detectors shot.now) list.now) }
{
    marks.fill(0);
    tables::copy_to(shot, wrong, 0);
    if !meet(g, list, marks, wrong) {
        return Err(Refusal::Edge);
    }
    Ok(match lowest(wrong) {
        Some(detector) => Marking::Differs { detector },
        None => Marking::Pass,
    })
}

// The XOR of the listed edges' rows, from the last one back.
#[tactic(auto, using(crate::proofs::Xors::start, crate::proofs::Xors::turn))]
pub fn write_row(edge_obs: &[u64], list: &[u32], row: &mut [u64])
    requires { InTable (length row.old) edge_obs.now list.now }
    ensures { row.new ≡ xor_rows (length row.old) edge_obs.now list.now }
{
    row.fill(0);
    let w = row.len();
    for e in list.iter().rev() {
        let e = *e as usize;
        let from = e * w;
        let to = from + w;
        bits::xor_into(row, &edge_obs[from..to]);
    }
}
