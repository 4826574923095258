// What a scale is. A scale is a set of values from worst to best with join, meet and opposite.
ghost use Rattle.std.specs.Prelude.{◌≡◌, ℕ, T, List, ◌++◌};
ghost use Rattle.scale.specs.Laws.{Algebra, Lawful};

pub trait Scale: Copy + Sized {
    // what the operations mean
    ghost algebra: { Algebra Self };

    // The value below all others.
    fn worst() -> Self
        ensures { result ≡ algebra.worst };

    // The value above all others.
    fn best() -> Self
        ensures { result ≡ algebra.best };

    // The mark of what is still owed: not yet kept.
    fn pending() -> Self
        ensures { result ≡ algebra.pending };

    // The mark of what is taken for granted: not yet broken.
    fn presumed() -> Self
        ensures { result ≡ algebra.presumed };

    // The better of two values where they can be compared: the least value above both.
    fn join(self, other: Self) -> Self
        ensures { result ≡ algebra.join self other };

    // The greatest value below both.
    fn meet(self, other: Self) -> Self
        ensures { result ≡ algebra.meet self other };

    // The value on the other side of the scale.
    fn opposite(self) -> Self
        ensures { result ≡ algebra.opposite self };

    // Yes exactly for equal values. An operation of its own, as callers know it: a scale need not have `==`, which promises an
    // equivalence and no more.
    fn same(self, other: Self) -> bool
        ensures equal { T result → self ≡ other }
        ensures told { self ≡ other → T result };

    // the laws that every scale keeps
    ghost lawful: { Lawful algebra };
}
