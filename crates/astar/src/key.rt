ghost use Rattle.std.specs.Prelude.{◌≡◌};
ghost use Rattle.astar.specs.Search.{key as key_of, key_le};

use floor::Floor;
use toll::Toll;

/// A place's two tolls in the order of the search: by way of the place, and from the place on.
#[derive(Clone, Copy)]
pub struct Key<T> {
    far: T,
    near: T,
}

impl<T: Toll> Key<T> {
    /// The key of a place with its recorded toll, seen from the carrier's place.
    pub fn of<F: Floor<Toll = T>>(floor: &F, from: u16, place: u16, toll: T) -> Self
        ensures { result ≡ key_of T.Toll.tolls (F.Floor.meaning floor.now) from place toll }
    {
        let estimate = floor.estimate(from, place).unwrap_or(T::zero());
        Key {
            far: estimate.join(toll),
            near: toll,
        }
    }

    /// Whether this key comes before the other or has the same tolls.
    pub fn at_most(self, other: Self) -> bool
        ensures { result ≡ key_le T.Toll.tolls self other }
    {
        // By hand, since a kind of toll has no `Ord` to derive from.
        self.far.at_most(other.far)
            && (self.far.is_below(other.far) || self.near.at_most(other.near))
    }
}
