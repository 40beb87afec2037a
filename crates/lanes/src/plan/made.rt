ghost use Rattle.std.specs.Prelude.{◌≡◌, Ok};
ghost use Rattle.lanes.specs.Records.{plan_answer, Fits};
ghost use Rattle.lanes.specs.Plans.{plan_meaning, made_meaning, made_lanes};

use super::LanePlan;
use super::read::all_fair;
use crate::record::LaneRecord;
use toll::{Refusal, Toll};

impl<'a, T: Toll> LanePlan<'a, T> {
    /// Whether a plan of that many places can hold the records. Refused are first 0 or more than 1,024 places and more
    /// than 4,096 records; then a record whose ends are no places, are equal, or are those of another record.
    pub fn check(places: u32, lanes: &[LaneRecord<T>]) -> Result<(), Refusal>
        ensures answer { result ≡ plan_answer places lanes.now }
        ensures fits { (result ≡ Ok tt → Fits places lanes.now) × (Fits places lanes.now → result ≡ Ok tt) }
    {
        if places == 0 || places > 1024 || lanes.len() > 4096 {
            return Err(Refusal::FloorSize);
        }
        if !all_fair(places, lanes) {
            return Err(Refusal::LaneRecord);
        }
        Ok(())
    }

    /// A plan over the lent records. What the check refuses becomes a plan of one place and no lane, which holds none of them.
    pub fn make(places: u32, lanes: &'a mut [LaneRecord<T>]) -> LanePlan<'a, T>
        ensures floor { plan_meaning T.Toll.tolls result ≡ made_meaning T.Toll.tolls places lanes.old }
        ensures lanes { result.lanes.now ≡ made_lanes places lanes.old }
        ensures lender { plan_answer places lanes.old ≡ Ok tt → result.lanes.ghost_name ≡ lanes.entry.ghost_name }
    {
        if LanePlan::check(places, lanes).is_ok() {
            // The check allows at most 1,024 places.
            LanePlan {
                lanes,
                places: places as u16,
            }
        } else {
            LanePlan {
                lanes: &mut [],
                places: 1,
            }
        }
    }
}
