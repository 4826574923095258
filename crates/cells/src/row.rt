// A row at cell values.
ghost use Rattle.std.specs.Prelude.{◌≡◌, ℕ, ◌^◌, ◌<◌, length};
ghost use Rattle.cells.specs.RowAt.{listed, RowAt, RowBy, Gives};
ghost use Rattle.cells.specs.Rows.{at, RowLaws};

use scale::order::Scale;

// The row at the cells' values, and none exactly where the row has not 2 ^ n values for n cells; rows of every number of
// cells keep the laws of rows.
pub fn row_at<S: Scale>(row: &[S], cells: &[S]) -> Option<S>
    ensures answer { RowAt S.Scale.algebra row.now cells.now result }
    ensures laws { (n : ℕ) → RowLaws S.Scale.algebra n }
{
    row_by(row, cells.len(), |cell| cells[cell])
}

// The row of so many cells at the values that a closure gives for them, and none exactly where the row has not 2 ^ n values
// for n cells; the laws of rows stand here too, since what is worked out row by row calls this.
pub fn row_by<S: Scale, F: Fn(usize) -> S>(row: &[S], cells: usize, value: F) -> Option<S>
    requires { (cell : ℕ) → cell < cells → F.pre value cell }
    ensures answer { RowBy S.Scale.algebra row.now cells (F.post value) result }
    ensures laws { (n : ℕ) → RowLaws S.Scale.algebra n }
{
    fitting_row_by(row, cells, value)
}

// The answer of row_by.
fn fitting_row_by<S: Scale, F: Fn(usize) -> S>(row: &[S], cells: usize, value: F) -> Option<S>
    requires { (cell : ℕ) → cell < cells → F.pre value cell }
    ensures { RowBy S.Scale.algebra row.now cells (F.post value) result }
{
    if cells < 64 && row.len() == 1usize << cells {
        Some(halve(row, cells, &value))
    } else {
        None
    }
}

// The row of so many cells at their values: the half without the last of them, joined with its value met with the half
// with it.
fn halve<S: Scale, F: Fn(usize) -> S>(row: &[S], cells: usize, value: &F) -> S
    requires whole { length row.now ≡ 2 ^ cells }
    requires callable { (cell : ℕ) → cell < cells → F.pre value.now cell }
    ensures { (v : ℕ → S) → Gives (F.post value.now) cells v → result ≡ at S.Scale.algebra cells (listed S.Scale.algebra row.now) v }
{
    if cells == 0 {
        return row[0];
    }
    let (without, with) = row.split_at(row.len() / 2);
    let last = value(cells - 1);
    halve(without, cells - 1, value).join(last.meet(halve(with, cells - 1, value)))
}
