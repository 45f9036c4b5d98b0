// docs/RULES.md, "Frames": the last line of an input, and the line after it.
#![tactic(auto)]

ghost use Rattle.std.specs.Prelude.{◌≡◌, [], ◌+◌, ◌-◌, ◌≤◌, length, take, true};
ghost use Rattle.edges.specs.Lent.{slices_of, SameEdges};
ghost use Rattle.reader.specs.Lent.{columns_in, SameTables};
ghost use Rattle.session.specs.Kept.{Kept};
ghost use Rattle.frames.specs.LineLaws.{unended};
ghost use Rattle.input_end.specs.Finish.{Finishes};

use edges::EdgeTables;
use reader::Tables;
use session::Numbers;
use std::ops::ControlFlow;

// All that is left to write, at the front of an output of 1,101 bytes and more.
pub fn finish(
    numbers: Numbers,
    used: usize,
    line: &[u8],
    read: &mut Tables,
    edges: &mut EdgeTables,
    out: &mut [u8],
) -> usize
    requires { (1101 ≤ length out.old) × (used ≤ length line.now) × (unended (take used line.now) ≡ true) × Kept numbers (columns_in read.old) (slices_of edges.old []) }
    ensures finishes { Finishes numbers (columns_in read.old) (slices_of edges.old []) (take used line.now) result (columns_in read.new) (slices_of edges.new []) out.old out.new }
    ensures same { SameTables read.old read.new × SameEdges edges.old edges.new }
{
    if used == 0 {
        return session::write_end(numbers, out);
    }
    let told = session::answer_line(
        &line[..used],
        numbers,
        read,
        edges,
        &mut out[..session::LONGEST_REPLY],
    );
    match told {
        ControlFlow::Break(written) => written,
        ControlFlow::Continue(on) => on.written
            + session::write_end(on.numbers, &mut out[on.written..]),
    }
}
