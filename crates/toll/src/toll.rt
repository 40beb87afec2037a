ghost use Rattle.std.specs.Prelude.{◌≡◌, not, ◌&&◌};
ghost use Rattle.toll.specs.Tolls.{Tolls, TollLaws};

/// A kind of toll: values in a total order that can be joined one behind the other.
pub trait Toll: Copy {
    /// The order, the joining, zero and shut.
    ghost tolls: { Tolls Self };

    /// Whether this toll is at most the other. A kind needs no `Ord` beside it.
    fn at_most(self, other: Self) -> bool
        ensures { result ≡ tolls.le self other };

    /// Whether this toll is below the other.
    final fn is_below(self, other: Self) -> bool
        ensures { result ≡ not (tolls.le other self) }
    {
        !other.at_most(self)
    }

    /// Whether neither toll is below the other.
    final fn is_same(self, other: Self) -> bool
        ensures { result ≡ (tolls.le self other && tolls.le other self) }
    {
        self.at_most(other) && other.at_most(self)
    }

    /// This toll and then the other.
    fn join(self, other: Self) -> Self
        ensures { result ≡ tolls.join self other };

    /// The least toll.
    fn zero() -> Self
        ensures { result ≡ tolls.zero };

    /// The greatest toll: no carrier passes.
    fn shut() -> Self
        ensures { result ≡ tolls.shut };

    ghost lawful: { TollLaws tolls };
}
