// docs/RULES.md, "Frames": an input that comes in blocks. A line is gathered in a buffer, answered at its line feed, and the text goes behind what the output holds.
#![tactic(auto)]

ghost use Rattle.std.specs.Prelude.{◌≡◌, [], ◌+◌, ◌<◌, ◌≤◌, length};
ghost use Rattle.codes.specs.declared.Refusal.TheVariants.{Frame};
ghost use Rattle.edges.specs.Lent.{slices_of, SameEdges};
ghost use Rattle.reader.specs.Lent.{columns_in, SameTables};
ghost use Rattle.replies.specs.Last.{refusal_text};
ghost use Rattle.std.specs.declared.ops.ControlFlow.TheVariants.{Break};
ghost use Rattle.stream.specs.Fed.{start_place, LineEnd, Appended, Standing, Feeds, Further, Presses};

use codes::Refusal;
use edges::EdgeTables;
use reader::Tables;
use session::{Numbers, On};
use std::ops::ControlFlow;

// Where reading and writing stand.
#[derive(Clone, Copy)]
pub struct Place {
    pub numbers: Numbers,
    // of the line buffer, by a line that is not ended yet
    pub used: usize,
    // of the block
    pub taken: usize,
    // of the output
    pub filled: usize,
}

// The place to which a block is taken, or, where a refusal ends the output, how many bytes are written.
pub type Fed = ControlFlow<usize, Place>;

// The longest line that can be accepted: 02 with 255 detectors and 255 observables.
pub const LINE_BYTES: usize = 2062;

// Before the first byte.
pub fn start() -> Place
    ensures { result ≡ start_place }
{
    Place {
        numbers: session::begin(),
        used: 0,
        taken: 0,
        filled: 0,
    }
}

// The line feed from a place on, or the end of the block.
// kept: both end what there is of the line, which is measured and copied before it is asked which of them it was
fn line_end(block: &[u8], from: usize) -> usize
    requires { from ≤ length block.now }
    ensures { LineEnd block.now from result }
{
    for at in from..block.len() {
        if block[at] == b'\n' {
            return at;
        }
    }
    block.len()
}

// A line that is too long, whatever it holds.
fn refuse_long(out: &mut [u8], filled: usize) -> Fed
    requires { filled + 5 ≤ length out.old }
    ensures { (result ≡ Break (filled + length (refusal_text Frame))) × Appended filled (refusal_text Frame) out.old out.new }
{
    ControlFlow::Break(filled + replies::write_refusal(Refusal::Frame, &mut out[filled..]))
}

// A line answered, or what there is of it gathered.
fn feed_line(
    block: &[u8],
    p: Place,
    line: &mut [u8],
    read: &mut Tables,
    edges: &mut EdgeTables,
    out: &mut [u8],
) -> Fed
    requires { (p.taken < length block.now) × (p.filled + 1066 ≤ length out.old) × Standing p (columns_in read.old) (slices_of edges.old []) block.now line.old out.old }
    ensures feeds { Feeds p (columns_in read.old) (slices_of edges.old []) block.now line.old out.old result (columns_in read.new) (slices_of edges.new []) line.new out.new × Further p result }
    ensures same { SameTables read.old read.new × SameEdges edges.old edges.new }
{
    let end = line_end(block, p.taken);
    let size = end - p.taken;
    if line.len() - p.used < size {
        return refuse_long(out, p.filled);
    }
    let long = p.used + size;
    line[p.used..long].copy_from_slice(&block[p.taken..end]);
    if end == block.len() {
        return ControlFlow::Continue(Place {
            used: long,
            taken: end,
            ..p
        });
    }
    let told = session::answer_line(&line[..long], p.numbers, read, edges, &mut out[p.filled..]);
    match told {
        ControlFlow::Break(written) => ControlFlow::Break(p.filled + written),
        ControlFlow::Continue(On { numbers, written }) => ControlFlow::Continue(Place {
            numbers,
            used: 0,
            taken: end + 1,
            filled: p.filled + written,
        }),
    }
}

// Lines until the block is taken, the output has no room for one more reply, or it is ended.
pub fn feed(
    block: &[u8],
    from: Place,
    line: &mut [u8],
    read: &mut Tables,
    edges: &mut EdgeTables,
    out: &mut [u8],
) -> Fed
    requires { Standing from (columns_in read.old) (slices_of edges.old []) block.now line.old out.old }
    ensures feeds { Feeds from (columns_in read.old) (slices_of edges.old []) block.now line.old out.old result (columns_in read.new) (slices_of edges.new []) line.new out.new × Presses from result block.now (length out.old) }
    ensures same { SameTables read.old read.new × SameEdges edges.old edges.new }
{
    let mut p = from;
    // kept: a turn takes a line, or what the block has of one, while the output has room for a reply: no count is known before
    while p.taken < block.len() && session::LONGEST_REPLY <= out.len() - p.filled {
        p = feed_line(block, p, line, read, edges, out)?;
    }
    ControlFlow::Continue(p)
}
