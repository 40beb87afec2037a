ghost use Rattle.std.specs.Prelude.{◌<◌};

/// A toll in whole seconds; 4,294,967,295 is shut.
#[derive(Clone, Copy, PartialEq, Eq, PartialOrd, Ord, Debug)]
pub struct Seconds {
    value: u32,
    ghost fits: { value < 4294967296 },
}

pub mod kind;
