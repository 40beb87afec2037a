ghost use Rattle.std.specs.Prelude.{◌≡◌, ◌<◌, length};
ghost use Rattle.floor.specs.Setting.{set_answer, set_meaning, OnlyToll};
ghost use Rattle.lanes.specs.Plans.{plan_meaning, retolled};

use super::LanePlan;
use crate::record::LaneRecord;
use floor::Floor;
use toll::{Refusal, Toll};

impl<'a, T: Toll> Floor for LanePlan<'a, T> {
    type Toll = T;

    ghost meaning = { plan_meaning T.Toll.tolls };

    fn laws_hold(&self) {}

    fn places(&self) -> u16 {
        self.places
    }

    fn spots(&self) -> u16 {
        self.lanes.len() as u16
    }

    fn lane_ends(&self, lane: u16) -> Option<(u16, u16)> {
        self.lanes
            .get(usize::from(lane))
            .map(|record| (record.leaves, record.enters))
    }

    // A lane's spot has the lane's number.
    fn lane_toll(&self, lane: u16) -> Option<T> {
        self.spot_toll(lane)
    }

    fn spot_toll(&self, spot: u16) -> Option<T> {
        self.lanes.get(usize::from(spot)).map(|record| record.toll)
    }

    fn least_toll(&self, spot: u16) -> Option<T> {
        self.lanes.get(usize::from(spot)).map(|_| T::zero())
    }

    fn lane_out(&self, place: u16, k: u16) -> Option<u16> {
        self.nth_lane(|lane| lane.leaves == place, k)
    }

    fn lane_into(&self, place: u16, k: u16) -> Option<u16> {
        self.nth_lane(|lane| lane.enters == place, k)
    }

    fn lane_of_spot(&self, spot: u16, k: u16) -> Option<u16> {
        (usize::from(spot) < self.lanes.len() && k == 0).then_some(spot)
    }

    fn estimate(&self, from: u16, to: u16) -> Option<T> {
        (from < self.places && to < self.places).then_some(T::zero())
    }

    // No toll is below zero, the least toll of each spot.
    fn set_toll(&mut self, spot: u16, toll: T) -> Result<(), Refusal>
        ensures answer { result ≡ set_answer T.Toll.tolls (plan_meaning T.Toll.tolls self.old) spot toll }
        ensures floor { plan_meaning T.Toll.tolls self.new ≡ set_meaning T.Toll.tolls (plan_meaning T.Toll.tolls self.old) spot toll }
        ensures only { OnlyToll (plan_meaning T.Toll.tolls self.old) spot toll result (plan_meaning T.Toll.tolls self.new) }
        ensures lanes { self.new.lanes.now ≡ retolled self.old.lanes.now spot toll }
        ensures lender { self.new.lanes.ghost_name ≡ self.old.lanes.ghost_name }
    {
        let k = usize::from(spot);
        if k >= self.lanes.len() {
            return Err(Refusal::UnknownSpot);
        }
        rewrite(self.lanes, k, toll);
        Ok(())
    }
}

/// Writes the toll of a record. As a rule of the project, a function does it that takes the list for writing.
fn rewrite<T: Toll>(lanes: &mut [LaneRecord<T>], k: usize, toll: T)
    requires { k < length lanes.old }
    ensures { lanes.new ≡ retolled lanes.old k toll }
{
    lanes[k].toll = toll;
}
