ghost use Rattle.std.specs.Prelude.{◌≡◌};

// Two types and not one with a state, as a rule of the project: each call names the slip that it takes.

/// The carrier is parked at a place. The number is kept as it was handed in, whether or not there is such a place.
#[derive(Drop)]
pub struct Parked {
    pub(crate) place: u32,
}

impl Parked {
    /// Where the carrier is parked.
    pub fn place(&self) -> u32
        ensures { result ≡ self.now.place }
    {
        self.place
    }
}

/// The carrier is under way on an answered route, at a place.
#[derive(Drop)]
pub struct UnderWay {
    pub(crate) place: u32,
}

impl UnderWay {
    /// Where the carrier is.
    pub fn place(&self) -> u32
        ensures { result ≡ self.now.place }
    {
        self.place
    }
}
