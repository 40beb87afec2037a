ghost use Rattle.std.specs.Prelude.{◌≡◌};
ghost use Rattle.lanes.specs.Records.{appears, placed, all_fair};

use crate::record::LaneRecord;

/// Whether a record of the list has the ends of this one.
fn has_ends<T>(lanes: &[LaneRecord<T>], lane: &LaneRecord<T>) -> bool
    ensures { result ≡ appears lane.now lanes.now }
{
    lanes.iter().any(|other| lane.leaves == other.leaves && lane.enters == other.enters)
}

/// Whether each record is well placed, and none has the ends of another. Each is compared with those behind it.
pub(super) fn all_fair<T>(places: u32, lanes: &[LaneRecord<T>]) -> bool
    ensures { result ≡ all_fair places lanes.now }
{
    let mut left = lanes;
    while let [lane, rest @ ..] = left {
        if !is_placed(places, lane) || has_ends(rest, lane) {
            return false;
        }
        left = rest;
    }
    true
}

/// Whether the ends of a record are places and differ.
fn is_placed<T>(places: u32, lane: &LaneRecord<T>) -> bool
    ensures { result ≡ placed places lane.now }
{
    u32::from(lane.leaves) < places && u32::from(lane.enters) < places && lane.leaves != lane.enters
}
