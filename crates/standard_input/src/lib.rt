// docs/RULES.md, "Frames", program `bench`: standard input in blocks, answered as `stream` and `input_end` say; what a block is answered with is written at once. The loop is all that is here,
// and it is called with no table lent, so that a program asks nothing of it.
#![tactic(auto)]

ghost use Rattle.std.specs.Prelude.{[], ◌≤◌, IfOk, length};
ghost use Rattle.edges.specs.Lent.{slices_of};
ghost use Rattle.reader.specs.Lent.{columns_in};
ghost use Rattle.stream.specs.Long.{Long};
ghost use Rattle.standard_input.specs.Ready.{GoesOn};

use edges::EdgeTables;
use reader::Tables;
use std::io;
use std::io::{Read, Write};
use std::ops::ControlFlow;
use stream::Place;

// The front of the output, written.
fn put(to: &mut impl Write, out: &[u8], n: usize) -> io::Result<()>
    requires { n ≤ length out.now }
{
    to.write_all(&out[..n])
}

// The block, as far as it is not taken yet, or the next one, by one read: the place in it, and of how many bytes it is. At the end of the input there is none.
fn next_block(
    from: &mut impl Read,
    p: Place,
    size: usize,
    block: &mut [u8],
) -> io::Result<Option<(Place, usize)>>
    ensures { IfOk result (λ got. GoesOn p size block.old got block.new) }
{
    if p.taken < size {
        return Ok(Some((p, size)));
    }
    let n = from.read(block)?;
    if n == 0 {
        return Ok(None);
    }
    let first = Place {
        taken: 0,
        filled: 0,
        ..p
    };
    Ok(Some((first, n)))
}

// Block after block, each answered and the answers written, then the end of the input. There are more turns than can ever be taken, since nothing says that an input ends.
fn serve(
    from: &mut impl Read,
    to: &mut impl Write,
    block: &mut [u8],
    line: &mut [u8],
    read: &mut Tables,
    edges: &mut EdgeTables,
    out: &mut [u8],
) -> io::Result<()>
    requires { Long (columns_in read.old) (slices_of edges.old []) line.old out.old }
{
    let mut place = stream::start();
    let mut size = 0;
    for _ in 0..u64::MAX {
        let Some((p, n)) = next_block(from, place, size, block)? else {
            let n = input_end::finish(place.numbers, place.used, line, read, edges, out);
            return put(to, out, n);
        };
        let fed = stream::feed(&block[..n], p, line, read, edges, out);
        match fed {
            ControlFlow::Break(filled) => return put(to, out, filled),
            ControlFlow::Continue(q) => {
                put(to, out, q.filled)?;
                place = Place { filled: 0, ..q };
                size = n;
            }
        }
    }
    Ok(())
}

// Standard input answered on standard output, to its end, to the first refusal, or until reading or writing fails: then nothing more is written, so that an output with neither
// 8f nor ff at its end is known to be cut off.
pub fn answer(rt: &(impl Input + Print)) -> io::Result<()> {
    let mut block = [0u8; 65536];
    let mut out = [0u8; 65536];
    let mut line = [0u8; stream::LINE_BYTES];
    let mut read = Tables {
        probability_bits: &mut [0; 1024],
        counts: &mut [counts::ROW; 1024],
        entries: &mut [0; 8192],
        shot: &mut [0; reader::SHOT_WORDS],
    };
    let mut edges = EdgeTables {
        edge_u: &mut [0; 1024],
        edge_v: &mut [0; 1024],
        edge_weight: &mut [0.0; 1024],
        edge_obs: &mut [0; 2048],
    };
    serve(
        &mut rt.reader(),
        &mut io::writer(rt),
        &mut block,
        &mut line,
        &mut read,
        &mut edges,
        &mut out,
    )
}
