// Rows on slices.
ghost use Rattle.std.specs.Prelude.{◌≡◌, ◌^◌, ◌≤◌, ◌++◌, length, drop, replicate};

use scale::order::Scale;

// How many spare values letter and apply use: they leave these worst.
pub(crate) const SPARE: usize = 312;

// How many corners so many cells have.
pub(crate) fn corners(cells: usize) -> usize
    requires { cells ≤ 8 }
    ensures count { result ≡ 2 ^ cells }
    ensures most { result ≤ 256 }
{
    1usize << cells
}

// Leaves the first values worst.
pub(crate) fn clear<S: Scale>(count: usize, values: &mut [S])
    requires { count ≤ length values.old }
    ensures { values.new ≡ replicate count S.Scale.algebra.worst ++ drop count values.old }
{
    // a closure: tried with `S::worst` by name, but the check does not cover that here
    values[..count].fill_with(|| S::worst());
}
