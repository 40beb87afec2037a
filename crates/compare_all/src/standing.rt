use planner::Carrier;

/// Where the carrier is, parked or under way.
#[derive(Clone, Copy, PartialEq, Eq)]
pub enum Standing {
    Parked(u32),
    UnderWay(u32),
}

impl Standing {
    /// The place, parked or under way.
    pub fn place(self) -> u32 {
        match self {
            Standing::Parked(place) | Standing::UnderWay(place) => place,
        }
    }
}

impl From<&Carrier> for Standing {
    /// What a slip says.
    fn from(carrier: &Carrier) -> Standing {
        match carrier {
            Carrier::Parked(slip) => Standing::Parked(slip.place()),
            Carrier::UnderWay(slip) => Standing::UnderWay(slip.place()),
        }
    }
}
