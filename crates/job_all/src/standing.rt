use planner::Carrier;

/// Where a job stands: it has no floor yet, or its carrier is parked or under way.
#[derive(Clone, Copy, PartialEq, Eq, Debug)]
pub enum Standing {
    Empty,
    Parked,
    UnderWay,
}

impl From<&Carrier> for Standing {
    ghost use Rattle.std.specs.Prelude.{◌≡◌};
    ghost use Rattle.job_all.specs.Jobs.{standing_of};

    ghost from_gives = { λ carrier standing. standing ≡ standing_of carrier.now };

    fn from(carrier: &Carrier) -> Standing {
        match carrier {
            Carrier::Parked(_) => Standing::Parked,
            Carrier::UnderWay(_) => Standing::UnderWay,
        }
    }
}
