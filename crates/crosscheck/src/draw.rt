// Draws of numbers: the same at every run.
ghost use Rattle.std.specs.Prelude.{◌<◌, ◌≤◌, length};

// Where the draws stand.
#[derive(Drop)]
pub(crate) struct Draw {
    pub(crate) state: u64,
}

impl Draw {
    // A number below a bound.
    pub(crate) fn below(&mut self, bound: usize) -> usize
        requires { 0 < bound }
        ensures { result < bound }
    {
        self.state = self
            .state
            .wrapping_mul(6_364_136_223_846_793_005)
            .wrapping_add(1_442_695_040_888_963_407);
        (self.state >> 33) as usize % bound
    }

    // A number from 0 up to the highest.
    pub(crate) fn up_to(&mut self, highest: usize) -> usize
        ensures { result ≤ highest }
    {
        if highest == usize::MAX {
            return 0;
        }
        self.below(highest + 1)
    }

    // One of some choices.
    pub(crate) fn one_of<T: Copy>(&mut self, choices: &[T]) -> T
        requires { 0 < length choices.now }
    {
        choices[self.below(choices.len())]
    }
}
