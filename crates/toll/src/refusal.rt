/// Why a call says no, and the number that is printed for it.
#[derive(Clone, Copy, PartialEq, Eq, PartialOrd, Ord, Debug)]
pub enum Refusal {
    /// A floor with no place, too many places or too many lanes.
    FloorSize = 1,
    /// A lane record whose ends are no places, are equal, or are those of an earlier record.
    LaneRecord = 2,
    /// A table with fewer records than the floor has places.
    ShortTable = 3,
    /// At set-up, a target or carrier's place that is no place.
    NoStart = 4,
    /// A spot that the floor does not have.
    UnknownSpot = 5,
    /// A toll below the spot's least toll.
    BelowLeast = 6,
    /// A place, or a slip's place, that is no place.
    UnknownPlace = 7,
    /// No way to the target.
    NoWay = 8,
    /// A buffer with fewer entries than the floor has places.
    ShortBuffer = 9,
    /// A step at the target.
    AtTarget = 10,
    /// A floor whose number of places is not the planner's.
    OtherFloor = 11,
    /// A recorded way that the floor shown does not bear out.
    BrokenWay = 12,
    /// A job line of no known form, or an over-long job.
    BadLine = 13,
    /// A call that is not allowed now.
    NotNow = 14,
}

pub mod number;
