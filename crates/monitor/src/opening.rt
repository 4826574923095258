// Writing the empty volume.
ghost use Rattle.std.specs.Prelude.{◌≡◌, ◌*◌, ◌^◌, ◌≤◌, ◌++◌, length, drop};
ghost use Rattle.cells.specs.Rows.{empty};
ghost use Rattle.runs.specs.States.{listing, rows};

use crate::rows::corners;
use cells::laid::Laid;
use scale::order::Scale;

// The empty volume's entry: row k is best where bit k is set.
pub(crate) fn empty_entry<S: Scale>(row: usize, corner: usize) -> S
    requires { row ≤ 8 }
    ensures { result ≡ empty S.Scale.algebra row corner }
{
    if (corner >> row) % 2 == 1 {
        S::best()
    } else {
        S::worst()
    }
}

// Writes a row of the empty volume.
fn write_row<S: Scale>(row: usize, into: &mut [S])
    requires { row ≤ 8 }
    ensures { into.new ≡ listing (length into.old) (empty S.Scale.algebra row) }
{
    for (corner, entry) in into.iter_mut().enumerate() {
        *entry = empty_entry(row, corner);
    }
}

// The first rows of the empty volume, written over the front of a table. That a number of rows, or of a row, is at most 8 is said in
// clauses: plain numbers, handed on for one call.
pub(crate) fn write_empty<S: Scale>(laid: &Laid, count: usize, table: &mut [S])
    requires some { count ≤ 8 }
    requires long { count * 2 ^ laid.now.count ≤ length table.old }
    ensures { table.new ≡ rows laid.now.count count (empty S.Scale.algebra) ++ drop (count * 2 ^ laid.now.count) table.old }
{
    let size = corners(laid.count);
    // by places: tried with `chunks_exact_mut`, but the proof did not close, as the library tells nothing of what was written
    // into chunks
    for k in 0..count {
        write_row(k, &mut table[k * size..(k + 1) * size]);
    }
}
