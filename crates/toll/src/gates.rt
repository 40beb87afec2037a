ghost use Rattle.std.specs.Prelude.{◌≡◌, ◌<◌};

/// A toll in gates, and seconds between equal gate counts; gate count 65,535 is shut and has 0 seconds.
#[derive(Clone, Copy, PartialEq, Eq, PartialOrd, Ord, Debug)]
pub struct Gates {
    gates: u16,
    seconds: u32,
    ghost narrow: { gates < 65536 },
    ghost fits: { seconds < 4294967296 },
    ghost single: { (gates ≡ 65535 → seconds ≡ 0) },
}

pub mod kind;
