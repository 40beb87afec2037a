ghost use Rattle.std.specs.Prelude.{◌≡◌};
ghost use Rattle.toll.specs.SecondsKind.{seconds, seconds_kind};
ghost use Rattle.toll.specs.SecondsLaws.{seconds_lawful};

use super::Seconds;
use crate::toll::Toll;

impl Seconds {
    /// That many seconds.
    pub fn new(value: u32) -> Self
        ensures { result ≡ seconds value }
    {
        Seconds { value }
    }

    /// How many seconds.
    pub fn value(self) -> u32
        ensures { result ≡ self.value }
    {
        self.value
    }
}

impl Toll for Seconds {
    ghost tolls = { seconds_kind };

    ghost lawful = { seconds_lawful };

    fn at_most(self, other: Seconds) -> bool {
        self <= other
    }

    fn join(self, other: Seconds) -> Seconds {
        Seconds::new(self.value.saturating_add(other.value))
    }

    fn zero() -> Seconds {
        Seconds::new(0)
    }

    fn shut() -> Seconds {
        Seconds::new(u32::MAX)
    }
}
