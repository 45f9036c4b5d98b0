// docs/RULES.md, "Frames": a shot is checked at its 06 and decoded, and its 85 and 86 are written.
#![tactic(auto)]

ghost use Rattle.std.specs.Prelude.{◌≡◌, ◌+◌, ◌*◌, ◌≤◌, length};
ghost use Rattle.dem.specs.Tables.{written};
ghost use Rattle.lent_graph.specs.Graph.{lent};
ghost use Rattle.decoder.specs.Answer.{Decodes};
ghost use Rattle.shot_reply.specs.Lent.{outcome_on};
ghost use Rattle.shot_reply.specs.Outcome.{told, shot_text, differs, handed_for, decoded_shot};
ghost use Rattle.shot_reply.specs.Replied.{Replied};

use adjacency::Neighbor;
use cells::Tables;
use codes::Refusal;
use lent_graph::Graph;
use scratch::Scratch;
use shot::Shot;

// How many bytes were written, and whether an observable differs from the true one.
#[derive(Clone, Copy)]
pub struct Reply {
    pub written: usize,
    pub failed: bool,
}

// Whether two rows differ in any word.
fn differs(row: &[u64], truth: &[u64]) -> bool
    requires { length row.now ≡ length truth.now }
    ensures { result ≡ differs row.now truth.now }
{
    row != truth
}

// The shot decoded over scratch of its own, for at most 256 detectors and 1,024 edges.
fn decode(g: &Graph, shot: &[u64], row: &mut [u64], list: &mut [u32]) -> Result<Shot, Refusal>
    ensures { Decodes (handed_for (lent g.now) shot.now row.old list.old) result list.new row.new }
{
    let mut adj_offsets = [0u32; 257];
    let mut adj = [Neighbor { edge: 0, other: 0 }; 2048];
    let mut tree = [cells::NODE; 256];
    let mut flags = [cells::FLAGS; 256];
    let mut stacks = [cells::STACK; 256];
    let mut links = [cells::LINK; 1025];
    let mut growth = [0.0f64; 1024];
    let mut sat = [false; 1024];
    let tables = Tables {
        tree: &mut tree,
        flags: &mut flags,
        stacks: &mut stacks,
        links: &mut links,
        growth: &mut growth,
        sat: &mut sat,
    };
    let mut s = Scratch {
        adj_offsets: &mut adj_offsets,
        adj: &mut adj,
        tables,
    };
    decoder::decode_shot(g, shot, g.detectors, row, list, &mut s)
}

// 85 and 86, at the front of a slice; the answer is their length.
fn write_shot(row: &[u64], list: &[u32], out: &mut [u8]) -> usize
    requires { 10 + 16 * length row.now + 4 * length list.now ≤ length out.old }
    ensures { (result ≡ length (shot_text row.now list.now)) × (out.new ≡ written (shot_text row.now list.now) out.old) }
{
    let n = replies::write_row(row, out);
    n + replies::write_list(list, &mut out[n..])
}

// The lines of a shot that was decoded.
fn tell(row: &[u64], list: &[u32], truth: &[u64], out: &mut [u8]) -> Reply
    requires { (length row.now ≡ length truth.now) × (10 + 16 * length row.now + 4 * length list.now ≤ length out.old) }
    ensures { Replied (told (shot_text row.now list.now) (differs row.now truth.now)) (Ok result) out.old out.new }
{
    let failed = differs(row, truth);
    let written = write_shot(row, list, out);
    Reply { written, failed }
}

// The shot decoded into a row and a list, and told.
fn decode_told(
    g: &Graph,
    shot: &[u64],
    truth: &[u64],
    row: &mut [u64],
    list: &mut [u32],
    out: &mut [u8],
) -> Result<Reply, Refusal>
    requires { (length row.old ≡ length truth.now) × (10 + 16 * length row.old + 4 * length list.old ≤ length out.old) }
    ensures { Replied (decoded_shot (handed_for (lent g.now) shot.now row.old list.old) truth.now) result out.old out.new }
{
    let found = decode(g, shot, row, list)?;
    match found {
        Shot::Stuck { detector, .. } => Err(Refusal::Stuck { shot: 0, detector }),
        Shot::Decoded { length, .. } => Ok(tell(row, &list[0..length], truth, out)),
    }
}

// The packing of the row, then of the true observables, then the shot.
pub fn shot_reply(g: &Graph, shot: &[u64], truth: &[u64], out: &mut [u8]) -> Result<Reply, Refusal>
    requires { (length truth.now ≤ 2) × (1066 ≤ length out.old) }
    ensures { Replied (outcome_on g.now shot.now truth.now) result out.old out.new }
{
    packed::try_from_shot_major(shot, 1, g.detectors)?;
    packed::try_from_shot_major(truth, 1, g.observables)?;
    let mut row = [0u64; 2];
    let mut list = [0u32; 256];
    let words = truth.len();
    decode_told(g, shot, truth, &mut row[0..words], &mut list, out)
}
