// The table of a volume.
ghost use Rattle.std.specs.Prelude.{◌*◌, ◌^◌, ◌≤◌, length};

use cells::laid::Laid;
use scale::order::Scale;

// A rule's cells and the table of a volume, with a row for each of them. It is the type for a table that is read alone; a table
// that is written over is a slice lent from the caller's buffer for one call, so its length stands in clauses (opening, after,
// adding).
#[derive(Drop)]
pub(crate) struct Volume<'a, S: Scale> {
    pub(crate) laid: &'a Laid,
    pub(crate) table: &'a [S],
    ghost long: { laid.now.count * 2 ^ laid.now.count ≤ length table.now },
}
