ghost use Rattle.std.specs.Prelude.{◌≡◌, ◌<◌};

/// How often the tolls that matter are drawn: each is one side of a die with so many.
#[derive(Clone, Copy, PartialEq, Eq, Debug)]
pub struct Odds {
    /// The sides of the die for a toll in seconds.
    pub seconds: u32,
    /// The sides of the die for a toll in gates.
    pub gates: u32,
    /// The sides of the die for the least toll of a hall.
    pub least: u32,
    /// Whether now and then a toll is below the least of its spot.
    pub goes_below: bool,
}

/// A small generator with the odds of what is drawn: the same seed gives the same numbers.
#[derive(Drop)]
pub struct Random {
    state: u32,
    pub odds: Odds,
}

impl Random {
    /// The generator of a seed.
    pub fn seeded(seed: u32, odds: Odds) -> Self
        ensures { result.odds ≡ odds }
    {
        Random {
            state: seed | 1,
            odds,
        }
    }

    /// The next number. Any may come.
    pub fn next(&mut self) -> u32
        ensures { self.new.odds ≡ self.old.odds }
    {
        let mut x = self.state;
        x ^= x.wrapping_shl(13);
        x ^= x.wrapping_shr(17);
        x ^= x.wrapping_shl(5);
        self.state = x;
        x
    }

    /// A number below the bound, or 0 where the bound is 0.
    pub fn below(&mut self, bound: u32) -> u32
        ensures below { 0 < bound → result < bound }
        ensures none { bound ≡ 0 → result ≡ 0 }
        ensures odds { self.new.odds ≡ self.old.odds }
    {
        self.next().checked_rem(bound).unwrap_or(0)
    }

    /// The same for short numbers. It is no cast of `below`, since the stored outputs hold these draws.
    pub fn short(&mut self, bound: u16) -> u16
        ensures below { 0 < bound → result < bound }
        ensures none { bound ≡ 0 → result ≡ 0 }
        ensures odds { self.new.odds ≡ self.old.odds }
    {
        let x = (self.next() % 65536) as u16;
        x.checked_rem(bound).unwrap_or(0)
    }
}
