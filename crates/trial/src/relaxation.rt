ghost use Rattle.std.specs.Prelude.{◌≡◌, ◌-◌, Some, IsTrue, IfOk, vec_len};
ghost use Rattle.std.specs.List.{slice_get};
ghost use Rattle.floor.specs.Meaning.{then};

use crate::counting::counted;
use floor::Floor;
use lanes::LaneRecord;
use planner::Route;
use std::alloc::{AllocError, Global};
use toll::Toll;

/// The least toll from each place to a target by plain relaxation, over all lanes of a floor.
#[derive(Drop)]
pub struct Relaxed<T> {
    pub target: u16,
    lanes: Vec<LaneRecord<T>>,
    /// The least toll from each place, none where every way is shut.
    pub tolls: Vec<Option<T>>,
}

/// All lanes of a floor, place by place.
fn lanes_of<T: Toll, F: Floor<Toll = T>>(
    alloc: Global,
    floor: &F,
) -> Result<Vec<LaneRecord<T>>, AllocError> {
    let mut lanes = Vec::new(alloc);
    // By number, since a floor has its places by number.
    for place in 0..floor.places() {
        for lane in counted(alloc, |k| floor.lane_out(place, k))? {
            if let (Some((leaves, enters)), Some(toll)) = (
                floor.lane_ends(lane),
                floor.lane_toll(lane),
            ) {
                lanes.push(LaneRecord {
                    leaves,
                    enters,
                    toll,
                })?;
            }
        }
    }
    Ok(lanes)
}

/// The toll of a place, if it has any.
fn toll_at<T: Copy>(tolls: &[Option<T>], place: u16) -> Option<T>
    ensures { result ≡ then (slice_get tolls.now place) (λ toll. toll) }
{
    tolls.get(usize::from(place)).copied().flatten()
}

/// Sets the toll of a place.
fn set_toll<T: Copy>(tolls: &mut [Option<T>], place: u16, toll: T) {
    if let Some(held) = tolls.get_mut(usize::from(place)) {
        *held = Some(toll);
    }
}

/// Tries one lane: its toll joined with that of the place that it enters. Whether a toll fell.
fn relax<T: Toll + Ord>(tolls: &mut [Option<T>], lane: &LaneRecord<T>) -> bool {
    let Some(onward) = toll_at(tolls, lane.enters) else {
        return false;
    };
    let toll = lane.toll.join(onward);
    let falls = toll < T::shut() && toll_at(tolls, lane.leaves).is_none_or(|held| toll < held);
    if falls {
        set_toll(tolls, lane.leaves, toll);
    }
    falls
}

/// Tries all lanes. Whether a toll fell.
fn relax_all<T: Toll + Ord>(tolls: &mut [Option<T>], lanes: &[LaneRecord<T>]) -> bool {
    let mut fell = false;
    for lane in lanes {
        fell |= relax(tolls, lane);
    }
    fell
}

impl<T: Toll + Ord> Relaxed<T> {
    /// Relaxes until no toll falls.
    pub fn of<F: Floor<Toll = T>>(alloc: Global, floor: &F, target: u16) -> Result<Self, AllocError>
        ensures target { IfOk result (λ relaxed. relaxed.target ≡ target) }
        ensures places { IfOk result (λ relaxed. vec_len relaxed.tolls ≡ (F.Floor.meaning floor.now).places) }
    {
        let lanes = lanes_of(alloc, floor)?;
        let mut tolls = vec![in alloc; None; usize::from(floor.places())]?;
        set_toll(&mut tolls, target, T::zero());
        // Each pass reads what the one before wrote.
        for _ in 0..=floor.places() {
            if !relax_all(&mut tolls, &lanes) {
                break;
            }
        }
        Ok(Relaxed {
            target,
            lanes,
            tolls,
        })
    }

    /// The least toll from a place, none where every way is shut.
    pub fn toll(&self, from: u16) -> Option<T>
        ensures { result ≡ then (slice_get self.now.tolls.items from) (λ toll. toll) }
    {
        toll_at(&self.tolls, from)
    }

    /// The toll of the lane from one place to another, shut where there is none.
    fn lane_toll(&self, from: u16, to: u16) -> T {
        self.lanes
            .iter()
            .find(|lane| lane.leaves == from && lane.enters == to)
            .map_or(T::shut(), |lane| lane.toll)
    }

    /// The toll of a way, lane by lane.
    fn way_toll(&self, way: &[u16]) -> T {
        way.iter()
            .zip(way.iter().skip(1))
            .fold(T::zero(), |toll, (from, to)| {
                toll.join(self.lane_toll(*from, *to))
            })
    }

    /// Whether an answered route agrees: its toll is the least, its way at the front of the buffer leads from the carrier to the
    /// target, and has that toll.
    pub fn agrees(&self, route: &Route<T>, buffer: &[u16], from: u16) -> bool
        ensures starts { IsTrue result → slice_get buffer.now 0 ≡ Some from }
        ensures ends { IsTrue result → slice_get buffer.now (route.now.length - 1) ≡ Some self.now.target }
    {
        let Some(way) = buffer.get(..usize::from(route.length)) else {
            return false;
        };
        way.first().copied() == Some(from)
            && way.last().copied() == Some(self.target)
            && self.toll(from) == Some(route.toll)
            && self.way_toll(way) == route.toll
    }
}
