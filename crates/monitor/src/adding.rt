// A volume that comes after rows: each row is taken at the values of the volume's own rows.
ghost use Rattle.std.specs.Prelude.{◌≡◌, ◌*◌, ◌^◌, ◌≤◌, ◌++◌, length, drop};
ghost use Rattle.cells.specs.Rows.{followed};
ghost use Rattle.runs.specs.States.{rows, table_in};
ghost use Rattle.std.proofs.Common.{rules};

use crate::after::{After, write_row};
use crate::rows::corners;
use crate::volume::Volume;
use cells::laid::Laid;
use cells::row::row_by;
use scale::order::Scale;

impl<'a, S: Scale> After<S> for Volume<'a, S> {
    ghost cells = { λ v. v.laid.now.count };

    ghost table = { λ v. table_in S.Scale.algebra v.laid.now.count v.table.now };

    ghost needed = { 0 };

    ghost few = { Prim.search rules };

    fn laid(&self) -> &Laid {
        self.laid
    }

    fn entry(&self, row: &[S], corner: usize, _values: &mut [S]) -> S {
        let table: &[S] = self.table;
        let size = corners(self.laid.count);
        row_by(row, self.laid.count, |cell| table[cell * size + corner]).unwrap_or(S::worst())
    }
}

impl<'a, S: Scale> Volume<'a, S> {
    // All rows of a table with the volume after them, written over the front of another.
    pub(crate) fn write_rows(&self, first: &[S], into: &mut [S])
        requires one { self.now.laid.now.count * 2 ^ self.now.laid.now.count ≤ length first.now }
        requires room { self.now.laid.now.count * 2 ^ self.now.laid.now.count ≤ length into.old }
        ensures { into.new ≡ rows self.now.laid.now.count self.now.laid.now.count (followed S.Scale.algebra self.now.laid.now.count (table_in S.Scale.algebra self.now.laid.now.count first.now) (table_in S.Scale.algebra self.now.laid.now.count self.now.table.now)) ++ drop (self.now.laid.now.count * 2 ^ self.now.laid.now.count) into.old }
    {
        let size = corners(self.laid.count);
        // by places: tried by chunks where the empty volume is written, but the proof did not close (see opening)
        for k in 0..self.laid.count {
            write_row(
                self,
                &first[k * size..(k + 1) * size],
                &mut into[k * size..(k + 1) * size],
                &mut [],
            );
        }
    }
}
