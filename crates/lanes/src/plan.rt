ghost use Rattle.std.specs.Prelude.{◌≡◌, ◌<◌, ◌≤◌, true, length};
ghost use Rattle.lanes.specs.Records.{all_fair};

use crate::record::LaneRecord;

/// A floor of 1 to 1,024 places, with a lane for each record of a list that is lent to it. Record i is lane i, with spot i.
/// Of at most 4,096 records, each leads from a place to another, and no two share both ends in the same order.
#[derive(Drop)]
pub struct LanePlan<'a, T> {
    lanes: &'a mut [LaneRecord<T>],
    places: u16,
    ghost some: { 0 < places },
    ghost few: { places ≤ 1024 },
    ghost short: { length lanes.now ≤ 4096 },
    ghost fair: { all_fair places lanes.now ≡ true },
}

pub mod floored;
mod made;
mod read;
mod scan;
