ghost use Rattle.std.specs.Prelude.{◌≡◌};
ghost use Rattle.floor.specs.Grid.{hall_meaning};

use super::Hall;
use super::direction::Direction;
use super::lanes::pick;
use crate::floor::Floor;
use toll::{Refusal, Seconds, Toll};

impl Floor for Hall {
    type Toll = Seconds;

    ghost meaning = { hall_meaning };

    fn laws_hold(&self) {}

    fn places(&self) -> u16 {
        self.size()
    }

    fn spots(&self) -> u16 {
        self.size()
    }

    fn lane_ends(&self, lane: u16) -> Option<(u16, u16)> {
        let cell = lane / 4;
        if cell >= self.size() {
            return None;
        }
        let neighbour = self.next(cell, Direction::of(lane))?;
        Some((cell, neighbour))
    }

    fn lane_toll(&self, lane: u16) -> Option<Seconds> {
        let (_, entered) = self.lane_ends(lane)?;
        self.spot_toll(entered)
    }

    fn spot_toll(&self, spot: u16) -> Option<Seconds> {
        (spot < self.size()).then(|| Seconds::new(self.cells.toll(spot)))
    }

    fn least_toll(&self, spot: u16) -> Option<Seconds> {
        (spot < self.size()).then_some(self.least)
    }

    fn lane_out(&self, place: u16, k: u16) -> Option<u16> {
        if place >= self.size() {
            return None;
        }
        let found = [
            self.lane_towards(place, Direction::Up),
            self.lane_towards(place, Direction::Right),
            self.lane_towards(place, Direction::Down),
            self.lane_towards(place, Direction::Left),
        ];
        pick(&found, k)
    }

    // In rising order the lanes come from above, the left, the right and below.
    fn lane_into(&self, place: u16, k: u16) -> Option<u16> {
        if place >= self.size() {
            return None;
        }
        let found = [
            self.lane_back(place, Direction::Up),
            self.lane_back(place, Direction::Left),
            self.lane_back(place, Direction::Right),
            self.lane_back(place, Direction::Down),
        ];
        pick(&found, k)
    }

    // A lane's spot is the cell that it enters.
    fn lane_of_spot(&self, spot: u16, k: u16) -> Option<u16> {
        self.lane_into(spot, k)
    }

    fn estimate(&self, from: u16, to: u16) -> Option<Seconds> {
        if from >= self.size() || to >= self.size() {
            return None;
        }
        let rows = (from / self.columns).abs_diff(to / self.columns);
        let columns = (from % self.columns).abs_diff(to % self.columns);
        Some(Seconds::new(
            self.least
                .value()
                .saturating_mul(u32::from(rows) + u32::from(columns)),
        ))
    }

    fn set_toll(&mut self, spot: u16, toll: Seconds) -> Result<(), Refusal> {
        if spot >= self.size() {
            return Err(Refusal::UnknownSpot);
        }
        if !self.least.at_most(toll) {
            return Err(Refusal::BelowLeast);
        }
        self.cells.store(spot, toll.value());
        Ok(())
    }
}
