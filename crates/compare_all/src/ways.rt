//! The recorded ways of the model: how a search grows them, and what a change drops of them.
use crate::picture::{Lane, Picture};
use floor::Floor;
use planner::Reading;
use std::alloc::{AllocError, Global};
use std::collections::BTreeSet;
use toll::Toll;

/// What is recorded of each place, and which places are open.
#[derive(Clone, Drop)]
pub struct Tree<T> {
    pub readings: Vec<Reading<T>>,
    pub open: BTreeSet<u16>,
}

/// The two tolls of a place's key.
#[derive(Clone, Copy, PartialEq, Eq, PartialOrd, Ord)]
pub struct Key<T> {
    over: T,
    on: T,
}

/// The next place of a place, by readings.
pub fn next_of<T: Copy>(readings: &[Reading<T>], place: u16) -> Option<u16> {
    readings.get(usize::from(place))?.next
}

impl<T: Toll + Ord> Tree<T> {
    /// The target alone is in the tree, at zero and open.
    pub fn rooted(alloc: Global, places: u16, target: u16) -> Result<Self, AllocError> {
        let outside = Reading {
            toll: None,
            next: None,
        };
        let mut tree = Tree {
            readings: vec![in alloc; outside; usize::from(places)]?,
            open: BTreeSet::new(alloc),
        };
        tree.record(target, T::zero(), None)?;
        Ok(tree)
    }

    pub fn toll(&self, place: u16) -> Option<T> {
        self.readings.get(usize::from(place))?.toll
    }

    pub fn next(&self, place: u16) -> Option<u16> {
        next_of(&self.readings, place)
    }

    /// Records a place, and opens it.
    fn record(&mut self, place: u16, toll: T, next: Option<u16>) -> Result<(), AllocError> {
        if let Some(reading) = self.readings.get_mut(usize::from(place)) {
            *reading = Reading {
                toll: Some(toll),
                next,
            };
            self.open.insert(place)?;
        }
        Ok(())
    }

    /// Takes a place out.
    fn take_out(&mut self, place: u16) {
        if let Some(reading) = self.readings.get_mut(usize::from(place)) {
            *reading = Reading {
                toll: None,
                next: None,
            };
        }
        self.open.remove(&place);
    }

    /// Opens a place, if it is in the tree.
    fn reopen(&mut self, place: u16) -> Result<(), AllocError> {
        if self.toll(place).is_some() {
            self.open.insert(place)?;
        }
        Ok(())
    }

    /// The key of a place, if it is in the tree.
    fn key<F: Floor<Toll = T>>(&self, floor: &F, from: u16, place: u16) -> Option<Key<T>> {
        let on = self.toll(place)?;
        let over = floor.estimate(from, place)?.join(on);
        Some(Key { over, on })
    }

    /// The open place with the smallest key, and of those the one with the smallest number.
    pub fn first_open<F: Floor<Toll = T>>(&self, floor: &F, from: u16) -> Option<(Key<T>, u16)> {
        self.open
            .iter()
            .filter_map(|place| Some((self.key(floor, from, *place)?, *place)))
            .min()
    }

    /// Tries one lane with the toll of the place that it enters.
    fn try_lane(&mut self, picture: &Picture<T>, lane: Lane, onward: T) -> Result<(), AllocError> {
        let toll = picture.lane_toll(lane).join(onward);
        if toll < T::shut() && self.toll(lane.from).is_none_or(|held| toll < held) {
            self.record(lane.from, toll, Some(lane.to))?;
        }
        Ok(())
    }

    /// Opens a place out.
    pub fn open_out(&mut self, picture: &Picture<T>, place: u16) -> Result<(), AllocError> {
        self.open.remove(&place);
        let Some(onward) = self.toll(place) else {
            return Ok(());
        };
        for lane in picture.lanes.iter().filter(|lane| lane.to == place) {
            self.try_lane(picture, *lane, onward)?;
        }
        Ok(())
    }

    /// Whether a place is in the tree and no open place has a smaller key.
    pub fn is_solved<F: Floor<Toll = T>>(&self, floor: &F, from: u16) -> bool {
        let Some(own) = self.key(floor, from, from) else {
            return false;
        };
        self.first_open(floor, from)
            .is_none_or(|(first, _)| own <= first)
    }

    /// The places whose recorded way pays at the spot: passes over all places until none is added.
    fn paying(
        &self,
        alloc: Global,
        picture: &Picture<T>,
        spot: u32,
    ) -> Result<BTreeSet<u16>, AllocError> {
        let mut paying = BTreeSet::new(alloc);
        // Each pass reads what the one before added.
        for _ in 0..=picture.places {
            let found = paying.len();
            for place in 0..picture.places {
                if let Some(next) = self.next(place)
                    && (paying.contains(&next) || picture.pays(place, next, spot))
                {
                    paying.insert(place)?;
                }
            }
            if paying.len() == found {
                break;
            }
        }
        Ok(paying)
    }

    /// Takes out the places whose recorded way pays at the spot, and opens the places that a lane from one of them enters.
    pub fn drop_behind(
        &mut self,
        alloc: Global,
        picture: &Picture<T>,
        spot: u32,
    ) -> Result<(), AllocError> {
        let paying = self.paying(alloc, picture, spot)?;
        for place in &paying {
            self.take_out(*place);
        }
        for lane in picture
            .lanes
            .iter()
            .filter(|lane| paying.contains(&lane.from))
        {
            self.reopen(lane.to)?;
        }
        Ok(())
    }

    /// Opens the places of the tree that a lane of the spot enters.
    pub fn reopen_entered(&mut self, picture: &Picture<T>, spot: u32) -> Result<(), AllocError> {
        for lane in picture
            .lanes
            .iter()
            .filter(|lane| u32::from(lane.spot) == spot)
        {
            self.reopen(lane.to)?;
        }
        Ok(())
    }

    /// How many places were expanded since: those that are in the tree and closed now, and were open before or had another toll or
    /// none.
    pub fn expanded_since(&self, before: &Self) -> usize {
        (0..u16::MAX)
            .zip(self.readings.iter().zip(&before.readings))
            .filter(|(place, (is, was))| {
                is.toll.is_some()
                    && !self.open.contains(place)
                    && (before.open.contains(place) || was.toll != is.toll)
            })
            .count()
    }
}
