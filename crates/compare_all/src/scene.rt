//! What stands around a call, and what a change drops.
use crate::picture::Picture;
use crate::ways::next_of;
use floor::Floor;
use planner::{Planner, Reading};
use std::alloc::{AllocError, Global};
use toll::Toll;

/// What stands around a call: the floor, what the planner shows of its table, and its tally.
#[derive(PartialEq, Eq, Drop)]
pub struct Scene<T> {
    pub picture: Picture<T>,
    pub readings: Vec<Reading<T>>,
    pub tally: u32,
}

/// Whether a place left the tree.
fn has_left<T: Toll>(before: &Reading<T>, after: &Reading<T>) -> bool {
    before.toll.is_some() && after.toll.is_none()
}

impl<T: Toll + Ord> Scene<T> {
    /// What floor and planner show.
    pub fn of<'t, F: Floor<Toll = T>>(
        alloc: Global,
        planner: &Planner<'t, T>,
        floor: &F,
    ) -> Result<Self, AllocError> {
        Ok(Scene {
            picture: Picture::of(alloc, floor)?,
            readings: (0..u32::MAX)
                .map_while(|place| planner.read(place).ok())
                .collect(alloc)?,
            tally: planner.tally(),
        })
    }

    /// Whether the way that the readings show from a place pays at the spot.
    fn pays_on_its_way(&self, from: u16, spot: u32) -> bool {
        let mut place = from;
        // Each step begins where the one before ended.
        for _ in 0..self.readings.len() {
            let Some(next) = next_of(&self.readings, place) else {
                return false;
            };
            if self.picture.pays(place, next, spot) {
                return true;
            }
            place = next;
        }
        false
    }

    /// How many places left the tree until then.
    pub fn left_until(&self, after: &Self) -> usize {
        self.readings
            .iter()
            .zip(&after.readings)
            .filter(|(before, after)| has_left(before, after))
            .count()
    }

    /// Whether an accepted change drops the places that it should: a place leaves the tree exactly if its way paid at a spot that
    /// became dearer, and else is recorded as before.
    pub fn drops_rightly(&self, after: &Self, spot: u32, toll: T) -> bool {
        let is_dearer = self.picture.spot(spot).is_some_and(|held| held.toll < toll);
        (0..u16::MAX)
            .zip(self.readings.iter().zip(&after.readings))
            .all(|(place, (before, after))| {
                let pays_more = is_dearer && self.pays_on_its_way(place, spot);
                has_left(before, after) == pays_more && (pays_more || before == after)
            })
    }
}
