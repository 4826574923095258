// What comes after the rows of a table, and rows with it after them.
ghost use Rattle.std.specs.Prelude.{◌≡◌, ℕ, ◌*◌, ◌^◌, ◌<◌, ◌≤◌, length};
ghost use Rattle.cells.specs.RowAt.{listed};
ghost use Rattle.cells.specs.Rows.{at};
ghost use Rattle.monitor.specs.Work.{row_then, rows_then};
ghost use Rattle.runs.specs.Calls.{cleared};

use crate::rows::{SPARE, clear, corners};
use cells::laid::Laid;
use scale::order::Scale;

// A letter or a volume that comes after rows.
pub(crate) trait After<S: Scale> {
    // how many cells its rule has, its table, and in how many values it works out an entry
    ghost cells: { Self → ℕ };

    ghost table: { Self → ℕ → ℕ → S };

    ghost needed: { ℕ };

    // The rule's cells.
    fn laid(&self) -> &Laid
        ensures { result.now.count ≡ cells self.now };

    // How many corners a row has.
    fn corners(&self) -> usize
        ensures count { result ≡ 2 ^ cells self.now }
        ensures most { result ≤ 256 }
    {
        corners(self.laid().count)
    }

    // A row's entry at a corner, with this after it. Each has its own: a letter first works out its column over the values, a
    // volume has it at hand. The row's length stands in a clause: the row is a slice lent from the caller's buffer for one call,
    // and a type that held its length would be made for that call alone.
    fn entry(&self, row: &[S], corner: usize, values: &mut [S]) -> S
        requires whole { length row.now ≡ 2 ^ cells self.now }
        requires within { corner < 2 ^ cells self.now }
        requires room { needed ≤ length values.old }
        ensures { result ≡ at S.Scale.algebra (cells self.now) (listed S.Scale.algebra row.now) (λ j. table self.now j corner) };

    // no more than there are cells
    ghost few: { needed ≤ 8 };
}

// Writes a row, with what comes after it, over another row; the values are where its entries are worked out. The loop is that
// of the empty volume's rows (opening) but for the entry: one for both would take a closure, and promise of its calls in a
// clause what each loop now says in a line.
pub(crate) fn write_row<S: Scale, A: After<S>>(
    after: &A,
    row: &[S],
    into: &mut [S],
    values: &mut [S],
)
    requires whole { length row.now ≡ 2 ^ A.cells after.now }
    requires room { length into.old ≡ 2 ^ A.cells after.now }
    requires column { A.needed ≤ length values.old }
    ensures { into.new ≡ row_then S.Scale.algebra (A.cells after.now) row.now (A.table after.now) }
{
    for (corner, entry) in into.iter_mut().enumerate() {
        *entry = after.entry(row, corner, values);
    }
}

// Where the spare holds the values of an entry: behind the longest row.
const COLUMN: usize = 256;

// A row with what comes after it. The spare's length stands in a clause, since the spare is lent by the caller for one call and
// may be too short, which the checks of that call refuse: a type would have to be made behind them, for that call alone.
fn add_to_row<S: Scale, A: After<S>>(after: &A, row: &mut [S], spare: &mut [S])
    requires whole { length row.old ≡ 2 ^ A.cells after.now }
    requires room { 312 ≤ length spare.old }
    ensures { row.new ≡ row_then S.Scale.algebra (A.cells after.now) row.old (A.table after.now) }
{
    let (front, values) = spare.split_at_mut(COLUMN);
    let fresh = &mut front[..after.corners()];
    write_row(after, row, fresh, values);
    row.copy_from_slice(fresh);
}

// The first rows of a table with what comes after them; the spare's first values are left worst.
pub(crate) fn add_to_rows<S: Scale, A: After<S>>(
    after: &A,
    count: usize,
    table: &mut [S],
    spare: &mut [S],
)
    requires some { count ≤ 8 }
    requires long { count * 2 ^ A.cells after.now ≤ length table.old }
    requires room { 312 ≤ length spare.old }
    ensures table { table.new ≡ rows_then S.Scale.algebra (A.cells after.now) count table.old (A.table after.now) }
    ensures spare { spare.new ≡ cleared S.Scale.algebra spare.old }
{
    let size = after.corners();
    let used = &mut spare[..SPARE];
    // by places: tried by chunks in opening, but the proof did not close. The empty volume (opening) and the join (adding) go
    // over their rows alike: a loop for all three would need a closure that writes a row, and a clause on each of its calls
    for k in 0..count {
        add_to_row(after, &mut table[k * size..(k + 1) * size], used);
    }
    clear(SPARE, spare);
}
