// Whole tables: a list copied to a place, a column of flags set by a list of places.
#![tactic(auto)]

ghost use Rattle.std.specs.Prelude.{◌+◌, ◌<◌, ◌≤◌, ◌≡◌, false, [], ◌∷◌, ◌++◌, map, length, take, drop};
ghost use Rattle.cells.specs.Tables.{at_free, seen, frees, stack_number, stack_column, flag_number, flag_column, SameFlags};
ghost use Rattle.tables.specs.Marks.{Places, Painted};

use cells::{FlagColumn, Flags, Stack, StackColumn};

// The list is copied to a place of the table.
// kept: by places; `copy_from_slice` calls `memmove` for these few entries, which takes longer, and which the archive for C would need from outside
pub fn copy_to<T: Copy>(from: &[T], out: &mut [T], at: usize)
    requires { at + length from.now ≤ length out.old }
    ensures { out.new ≡ take at out.old ++ (from.now ++ drop (at + length from.now) out.old) }
{
    for i in 0..from.len() {
        out[at + i] = from[i];
    }
}

// Writes b into column j of the flags at each place that the first n entries of column k of the stacks name.
pub fn paint(
    stacks: &[Stack],
    k: StackColumn,
    n: usize,
    b: bool,
    flags: &mut [Flags],
    j: FlagColumn,
)
    requires { Places (map (stack_column (stack_number k)) stacks.now) n (map (flag_column (flag_number j)) flags.old) }
    ensures { Painted (map (stack_column (stack_number k)) stacks.now) n b (map (flag_column (flag_number j)) flags.old) (map (flag_column (flag_number j)) flags.new)
        × SameFlags (flag_number j ∷ []) flags.old flags.new }
{
    for stack in &stacks[..n] {
        let at = stack.get(k) as usize;
        flags[at].set(j, b);
    }
}

// None of the first n detectors seen is marked free.
pub fn unmark(stacks: &[Stack], n: usize, flags: &mut [Flags])
    requires { Places (seen stacks.now) n (frees flags.old) }
    ensures { Painted (seen stacks.now) n false (frees flags.old) (frees flags.new) × SameFlags (at_free ∷ []) flags.old flags.new }
{
    paint(stacks, StackColumn::Seen, n, false, flags, FlagColumn::Free);
}
