// A grid of values over the positions of a log.
ghost use Rattle.std.specs.Prelude.{◌≡◌, ◌*◌, vec_len};

// Values at the pairs of positions below the size: a row for each first position, one after another. The size
// stands beside them, since a square's side is not its length.
#[derive(Drop)]
pub struct Grid<S> {
    pub size: usize,
    pub cells: Vec<S>,
    ghost square: { vec_len cells ≡ size * size },
}
