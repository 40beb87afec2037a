//! The rules of the calls, told plainly over a picture of the floor: what each call answers and leaves behind.
use crate::picture::{Lane, Picture};
use crate::standing::Standing;
use crate::ways::Tree;
use floor::Floor;
use planner::{Answer, Call, Reading, Route};
use std::alloc::{AllocError, Global};
use toll::{Refusal, Toll};

/// What the rules keep between calls.
#[derive(Drop)]
pub struct Model<T> {
    alloc: Global,
    pub places: u16,
    pub target: u16,
    pub tally: u32,
    pub tree: Tree<T>,
    pub standing: Standing,
}

/// A way as it is followed: its places and its toll so far.
#[derive(Drop)]
struct Trail<T> {
    places: Vec<u16>,
    toll: T,
}

/// Why the model breaks a call off: the rules refuse it, or memory runs out.
#[derive(Drop)]
enum Stop {
    Refused(Refusal),
    OutOfMemory(AllocError),
}

impl From<Refusal> for Stop {
    fn from(why: Refusal) -> Stop {
        Stop::Refused(why)
    }
}

impl From<AllocError> for Stop {
    fn from(error: AllocError) -> Stop {
        Stop::OutOfMemory(error)
    }
}

/// Refuses with the reason unless the condition holds.
fn ensure(holds: bool, why: Refusal) -> Result<(), Refusal> {
    if holds { Ok(()) } else { Err(why) }
}

impl<T: Toll + Ord> Model<T> {
    /// Whether a set-up is accepted on a floor with so many places and a table with so many records.
    pub fn check(places: u16, records: usize, target: u32, place: u32) -> Result<(), Refusal> {
        ensure(usize::from(places) <= records, Refusal::ShortTable)?;
        let places = u32::from(places);
        ensure(target < places && place < places, Refusal::NoStart)
    }

    /// Sets up: the target alone is in the tree, and the carrier is parked. A refused set-up leaves no place.
    pub fn make(
        alloc: Global,
        places: u16,
        records: usize,
        target: u32,
        place: u32,
    ) -> Result<Self, AllocError> {
        let places = match Self::check(places, records, target, place) {
            Ok(()) => places,
            Err(_) => 0,
        };
        let target = u16::try_from(target).unwrap_or(0);
        Ok(Model {
            alloc,
            places,
            target,
            tally: 0,
            tree: Tree::rooted(alloc, places, target)?,
            standing: Standing::Parked(place),
        })
    }

    /// The place of a number.
    fn place(&self, place: u32) -> Result<u16, Refusal> {
        match u16::try_from(place) {
            Ok(place) if place < self.places => Ok(place),
            _ => Err(Refusal::UnknownPlace),
        }
    }

    /// Refuses a floor of another number of places.
    fn check_floor(&self, picture: &Picture<T>) -> Result<(), Refusal> {
        ensure(picture.places == self.places, Refusal::OtherFloor)
    }

    fn change(&mut self, picture: &mut Picture<T>, spot: u32, toll: T) -> Result<Answer<T>, Stop> {
        self.check_floor(picture)?;
        let held = picture.spot(spot).ok_or(Refusal::UnknownSpot)?;
        ensure(held.least <= toll, Refusal::BelowLeast)?;
        picture.retoll(spot, toll);
        if held.toll < toll {
            self.tree.drop_behind(self.alloc, picture, spot)?;
        }
        if toll < held.toll {
            self.tree.reopen_entered(picture, spot)?;
        }
        Ok(Answer::Done)
    }

    fn put(&mut self, place: u32) -> Result<Answer<T>, Stop> {
        self.place(place)?;
        self.standing = Standing::Parked(place);
        Ok(Answer::Done)
    }

    /// Opens one place out after the other until the way from a place is solved, and adds each to the tally. How many, if it is
    /// solved.
    fn search<F: Floor<Toll = T>>(
        &mut self,
        floor: &F,
        picture: &Picture<T>,
        from: u16,
    ) -> Result<Option<u32>, AllocError> {
        let mut count: u32 = 0;
        // Far more than a search of a list takes: a loop has to end.
        for _ in 0..10000u16 {
            if self.tree.is_solved(floor, from) {
                return Ok(Some(count));
            }
            let Some((_, place)) = self.tree.first_open(floor, from) else {
                break;
            };
            self.tree.open_out(picture, place)?;
            count = count.saturating_add(1);
            self.tally = self.tally.saturating_add(1);
        }
        Ok(None)
    }

    /// Follows the recorded way from a place, if it reaches the target and no lane is missing.
    fn follow(&self, picture: &Picture<T>, from: u16) -> Result<Option<Trail<T>>, AllocError> {
        let mut place = from;
        let mut trail = Trail {
            places: vec![in self.alloc; from]?,
            toll: T::zero(),
        };
        // Each step begins where the one before ended, and may fail for memory.
        for _ in 1..self.places {
            if place == self.target {
                break;
            }
            let Some(lane) = self.lane_onward(picture, place) else {
                return Ok(None);
            };
            trail.toll = trail.toll.join(picture.lane_toll(lane));
            trail.places.push(lane.to)?;
            place = lane.to;
        }
        Ok((place == self.target).then_some(trail))
    }

    fn route<F: Floor<Toll = T>>(
        &mut self,
        floor: &F,
        picture: &Picture<T>,
        place: u32,
        buffer: &mut [u16],
    ) -> Result<Answer<T>, Stop> {
        self.check_floor(picture)?;
        ensure(
            usize::from(self.places) <= buffer.len(),
            Refusal::ShortBuffer,
        )?;
        let from = self.place(place)?;
        let count = self.search(floor, picture, from)?.ok_or(Refusal::NoWay)?;
        let Trail { places, toll } = self.follow(picture, from)?.ok_or(Refusal::BrokenWay)?;
        ensure(self.tree.toll(from) == Some(toll), Refusal::BrokenWay)?;
        for (entry, place) in buffer.iter_mut().zip(&places) {
            *entry = *place;
        }
        self.standing = Standing::UnderWay(u32::from(from));
        Ok(Answer::Route(Route {
            toll,
            count,
            length: u16::try_from(places.len()).unwrap_or(u16::MAX),
        }))
    }

    /// The lane to the next place.
    fn lane_onward(&self, picture: &Picture<T>, place: u16) -> Option<Lane> {
        picture.between(place, self.tree.next(place)?)
    }

    fn step(&mut self, picture: &Picture<T>, place: u32) -> Result<Answer<T>, Stop> {
        self.check_floor(picture)?;
        let place = self.place(place)?;
        ensure(place != self.target, Refusal::AtTarget)?;
        let lane = self.lane_onward(picture, place).ok_or(Refusal::BrokenWay)?;
        self.standing = Standing::UnderWay(u32::from(lane.to));
        Ok(Answer::Place(u32::from(lane.to)))
    }

    fn halt(&mut self, place: u32) -> Answer<T> {
        self.standing = Standing::Parked(place);
        Answer::Place(place)
    }

    fn read(&self, place: u32) -> Result<Answer<T>, Stop> {
        let place = self.place(place)?;
        Ok(Answer::Reading(Reading {
            toll: self.tree.toll(place),
            next: self.tree.next(place),
        }))
    }

    /// Makes a call, unless the rules refuse it.
    fn accept<F: Floor<Toll = T>>(
        &mut self,
        floor: &F,
        picture: &mut Picture<T>,
        call: Call<T>,
        buffer: &mut [u16],
    ) -> Result<Answer<T>, Stop> {
        match (self.standing, call) {
            (_, Call::Read(place)) => self.read(place),
            (_, Call::Tally) => Ok(Answer::Tally(self.tally)),
            (Standing::Parked(_), Call::Change { spot, toll }) => self.change(picture, spot, toll),
            (Standing::Parked(_), Call::Put(place)) => self.put(place),
            (Standing::Parked(place), Call::Route) => self.route(floor, picture, place, buffer),
            (Standing::UnderWay(place), Call::Step) => self.step(picture, place),
            (Standing::UnderWay(place), Call::Halt) => Ok(self.halt(place)),
            _ => Err(Refusal::NotNow.into()),
        }
    }

    /// Makes a call by the rules: its answer, and what it leaves in model, picture and buffer.
    pub fn call<F: Floor<Toll = T>>(
        &mut self,
        floor: &F,
        picture: &mut Picture<T>,
        call: Call<T>,
        buffer: &mut [u16],
    ) -> Result<Answer<T>, AllocError> {
        match self.accept(floor, picture, call, buffer) {
            Ok(answer) => Ok(answer),
            Err(Stop::Refused(why)) => Ok(Answer::Refused(why)),
            Err(Stop::OutOfMemory(error)) => Err(error),
        }
    }
}
