use floor::Floor;
use std::alloc::{AllocError, Global};
use toll::Toll;
use trial::counted;

/// A lane between two places, and the spot that it pays at.
#[derive(Clone, Copy, PartialEq, Eq)]
pub struct Lane {
    pub from: u16,
    pub to: u16,
    pub spot: u16,
}

/// A spot's toll, and the least that it can be set to.
#[derive(Clone, Copy, PartialEq, Eq)]
pub struct Spot<T> {
    pub toll: T,
    pub least: T,
}

/// A plain picture of a floor: its lanes, and its spots by number.
#[derive(PartialEq, Eq, Drop)]
pub struct Picture<T> {
    pub places: u16,
    pub lanes: Vec<Lane>,
    spots: Vec<Spot<T>>,
}

impl<T: Toll> Picture<T> {
    /// What the floor's answers show.
    pub fn of<F: Floor<Toll = T>>(alloc: Global, floor: &F) -> Result<Self, AllocError> {
        let mut picture = Picture {
            places: floor.places(),
            lanes: Vec::new(alloc),
            spots: Vec::new(alloc),
        };
        // By number, since a floor has its spots by number.
        for spot in 0..floor.spots() {
            if let (Some(toll), Some(least)) = (floor.spot_toll(spot), floor.least_toll(spot)) {
                picture.spots.push(Spot { toll, least })?;
            }
            for lane in counted(alloc, |k| floor.lane_of_spot(spot, k))? {
                if let Some((from, to)) = floor.lane_ends(lane) {
                    picture.lanes.push(Lane { from, to, spot })?;
                }
            }
        }
        Ok(picture)
    }

    pub fn spot(&self, spot: u32) -> Option<Spot<T>> {
        self.spots.get(spot as usize).copied()
    }

    /// Draws another toll at a spot.
    pub fn retoll(&mut self, spot: u32, toll: T) {
        if let Some(held) = self.spots.get_mut(spot as usize) {
            held.toll = toll;
        }
    }

    /// The toll of a lane.
    pub fn lane_toll(&self, lane: Lane) -> T {
        self.spot(u32::from(lane.spot))
            .map_or(T::shut(), |spot| spot.toll)
    }

    /// The lane from one place to another.
    pub fn between(&self, from: u16, to: u16) -> Option<Lane> {
        self.lanes
            .iter()
            .find(|lane| lane.from == from && lane.to == to)
            .copied()
    }

    /// Whether the lane from one place to another pays at the spot.
    pub fn pays(&self, from: u16, to: u16, spot: u32) -> bool {
        self.between(from, to)
            .is_some_and(|lane| u32::from(lane.spot) == spot)
    }
}
