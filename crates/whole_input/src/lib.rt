// docs/RULES.md, "Frames": an input that lies whole in memory, answered from its first byte to its end.
#![tactic(auto)]

ghost use Rattle.std.specs.Prelude.{[], ◌≤◌, length};
ghost use Rattle.edges.specs.Lent.{slices_of};
ghost use Rattle.reader.specs.Lent.{columns_in};
ghost use Rattle.whole_input.specs.Whole.{Answered, Put};
ghost use Rattle.stream.specs.Long.{Long};

use edges::EdgeTables;
use reader::Tables;
use std::ops::ControlFlow;
use stream::Place;

// A text behind the first bytes of the output, as far as it fits.
fn put(text: &[u8], at: usize, out: &mut [u8]) -> Option<usize>
    requires { at ≤ length out.old }
    ensures { Put text.now at result out.old out.new }
{
    let room = out.len() - at;
    if room < text.len() {
        tables::copy_to(&text[..room], out, at);
        return None;
    }
    tables::copy_to(text, out, at);
    Some(at + text.len())
}

// Line after line, then the end. The answers to some lines are gathered, then put behind the others.
// kept: `standard_input::serve` goes the same way over `Read` and `Write`; but `write_all` promises nothing of what a call that fails wrote, and here every byte is promised, also where the answers do not fit
fn answer_over(
    input: &[u8],
    line: &mut [u8],
    read: &mut Tables,
    edges: &mut EdgeTables,
    reply: &mut [u8],
    out: &mut [u8],
) -> Option<usize>
    requires { Long (columns_in read.old) (slices_of edges.old []) line.old reply.old }
    ensures { Answered input.now result out.old out.new }
{
    let mut p = stream::start();
    let mut at = 0;
    // kept: a turn takes what `feed` took, as far as its output had room: no count is known before
    while p.taken < input.len() {
        let fed = stream::feed(input, p, line, read, edges, reply);
        match fed {
            ControlFlow::Break(n) => return put(&reply[..n], at, out),
            ControlFlow::Continue(q) => {
                at = put(&reply[..q.filled], at, out)?;
                p = Place { filled: 0, ..q };
            }
        }
    }
    let n = input_end::finish(p.numbers, p.used, line, read, edges, reply);
    put(&reply[..n], at, out)
}

// What an input is answered with, at the front of the output, as far as it fits.
pub fn answer_input(input: &[u8], out: &mut [u8]) -> Option<usize>
    ensures { Answered input.now result out.old out.new }
{
    let mut line = [0u8; stream::LINE_BYTES];
    let mut read = Tables {
        probability_bits: &mut [0; 1024],
        counts: &mut [counts::ROW; 1024],
        entries: &mut [0; 8192],
        shot: &mut [0; reader::SHOT_WORDS],
    };
    let mut edges = EdgeTables {
        edge_u: &mut [0; 1024],
        edge_v: &mut [0; 1024],
        edge_weight: &mut [0.0; 1024],
        edge_obs: &mut [0; 2048],
    };
    let mut reply = [0u8; 4096];
    answer_over(input, &mut line, &mut read, &mut edges, &mut reply, out)
}
