// Demand 3, run: a shot is decoded and the marker judges the decoder's own list. The contract says that it passes and writes the same row.
#![tactic(auto)]

ghost use Rattle.std.specs.Prelude.{length};
ghost use Rattle.scratch.specs.Scratch.{lengths_in};
ghost use Rattle.scratch.specs.Lent.{SameScratch};
ghost use Rattle.lent_graph.specs.Graph.{lent};
ghost use Rattle.decoder.specs.Answer.{handed};
ghost use Rattle.demand3.specs.Verified.{Fits, Follows, Verified};

use codes::Refusal;
use lent_graph::Graph;
use marking::Marking;
use scratch::Scratch;
use shot::Shot;

// The marker's answer and its row, which 128 observables fill. By value: each slice lent for writing makes the check longer.
#[derive(Clone, Copy)]
pub struct Verdict {
    pub marking: Result<Marking, Refusal>,
    pub row: [u64; 2],
}

// What the marker makes of the decoder's answer. Its row and its scratch are as long as any graph needs. Stuck and a refusal of the decoder are refusals here.
#[tactic(auto, using(crate::proofs::Verified::follows_decoded, crate::proofs::Verified::follows_stuck, crate::proofs::Verified::follows_refused))]
fn mark_answer(
    answer: Result<Shot, Refusal>,
    list: &[u32],
    g: &Graph,
    shot: &[u64],
    width: usize,
) -> Verdict
    requires { Fits answer list.now }
    ensures { Follows (lent g.now) shot.now width answer list.now result }
{
    match answer {
        Ok(Shot::Decoded { length, .. }) => {
            let mut row = [0; 2];
            let marking = marker::mark(
                g,
                shot,
                width,
                &list[0..length],
                &mut row,
                &mut [0; 256],
                &mut [0; 64],
            );
            Verdict { marking, row }
        }
        Ok(Shot::Stuck { detector, .. }) => Verdict {
            marking: Err(Refusal::Stuck { shot: 0, detector }),
            row: [0; 2],
        },
        Err(r) => Verdict {
            marking: Err(r),
            row: [0; 2],
        },
    }
}

// A shot decoded, and the verdict on the list that the decoder hands over.
pub fn decode_and_mark(
    g: &Graph,
    shot: &[u64],
    width: usize,
    row: &mut [u64],
    list: &mut [u32],
    s: &mut Scratch,
) -> Verdict
    ensures verified { Verified (handed (lent g.now) shot.now width row.old list.old (lengths_in s.old)) result list.new row.new }
    ensures same { SameScratch s.old s.new }
{
    let answer = decoder::decode_shot(g, shot, width, row, list, s);
    mark_answer(answer, list, g, shot, width)
}
