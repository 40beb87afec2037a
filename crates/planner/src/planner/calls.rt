ghost use Rattle.std.specs.Prelude.{◌≡◌, [], length, take};
ghost use Rattle.planner.specs.Calls.{state_of, read_answer, put_answer, step_answer};
ghost use Rattle.floor.specs.Meaning.{Meaning};
ghost use Rattle.planner.specs.Served.{world_of, turn_of, slip_by, parked_at, under_way_at};
ghost use Rattle.planner.specs.Handed.{put_place, put_slip, step_place, step_slip, moved_done, place_done, read_done};
ghost use Rattle.planner.specs.Promise.{Keeps};

use super::Planner;
use crate::answers::{Answer, Reading};
use crate::call::Call;
use crate::carrier::Carrier;
use crate::slips::{Parked, UnderWay};
use floor::Floor;
use toll::{Refusal, Toll};
use tree::Record;
use tree::table::{next_at, toll_at};
use tree::way::next_step;

impl<'t, T: Toll> Planner<'t, T> {
    /// The records of the places.
    fn front(&self) -> &[Record<T>]
        ensures { result.now ≡ take self.now.places self.now.table.now }
    {
        &self.table[..self.places as usize]
    }

    /// The place as the number of a record, if it is one.
    pub(super) fn known(&self, place: u32) -> Result<u16, Refusal>
        ensures { result ≡ put_answer (length (state_of self.now).tree) place }
    {
        if place < u32::from(self.places) {
            Ok(place as u16)
        } else {
            Err(Refusal::UnknownPlace)
        }
    }

    /// Puts the parked carrier at another place. A refusal hands the same slip back.
    pub fn put(&self, slip: Parked, place: u32) -> Result<Parked, (Parked, Refusal)>
        ensures answer { put_place result ≡ put_answer (length (state_of self.now).tree) place }
        ensures slip { put_slip result ≡ slip_by parked_at (parked_at slip.place) (put_answer (length (state_of self.now).tree) place) }
        ensures promise { (m : Meaning T) → Keeps T.Toll.tolls (world_of m self.now) (turn_of (parked_at slip.place) (Call.Put place) []) (record { answer = moved_done (put_place result); slip = put_slip result; world = world_of m self.now; buffer = [] }) }
    {
        match self.known(place) {
            Ok(place) => Ok(Parked {
                place: u32::from(place),
            }),
            Err(why) => Err((slip, why)),
        }
    }

    /// The place after a place on its recorded way.
    fn following<F: Floor<Toll = T>>(&self, floor: &F, place: u32) -> Result<u32, Refusal>
        ensures { result ≡ step_answer (F.Floor.meaning floor.now) (state_of self.now) place }
    {
        // Tested so in three calls, each time before tests of its own.
        if floor.places() != self.places {
            return Err(Refusal::OtherFloor);
        }
        let place = self.known(place)?;
        if place == self.target {
            return Err(Refusal::AtTarget);
        }
        next_step(self.front(), floor, place)
            .map(u32::from)
            .ok_or(Refusal::BrokenWay)
    }

    /// Goes on to the next place of the recorded way. A refusal hands the same slip back.
    pub fn step<F: Floor<Toll = T>>(
        &self,
        floor: &F,
        slip: UnderWay,
    ) -> Result<UnderWay, (UnderWay, Refusal)>
        ensures answer { step_place result ≡ step_answer (F.Floor.meaning floor.now) (state_of self.now) slip.place }
        ensures slip { step_slip result ≡ slip_by under_way_at (under_way_at slip.place) (step_answer (F.Floor.meaning floor.now) (state_of self.now) slip.place) }
        ensures promise { Keeps T.Toll.tolls (world_of (F.Floor.meaning floor.now) self.now) (turn_of (under_way_at slip.place) Call.Step []) (record { answer = place_done (step_place result); slip = step_slip result; world = world_of (F.Floor.meaning floor.now) self.now; buffer = [] }) }
    {
        match self.following(floor, slip.place) {
            Ok(place) => Ok(UnderWay { place }),
            Err(why) => Err((slip, why)),
        }
    }

    /// Parks the carrier where it is.
    pub fn halt(&self, slip: UnderWay) -> Parked
        ensures slip { result.place ≡ slip.place }
        ensures promise { (m : Meaning T) → Keeps T.Toll.tolls (world_of m self.now) (turn_of (under_way_at slip.place) Call.Halt []) (record { answer = Answer.Place result.place; slip = parked_at result.place; world = world_of m self.now; buffer = [] }) }
    {
        Parked { place: slip.place }
    }

    /// What is recorded of a place.
    pub fn read(&self, place: u32) -> Result<Reading<T>, Refusal>
        ensures answer { result ≡ read_answer (state_of self.now).tree place }
        ensures promise { (m : Meaning T) (slip : Carrier) → Keeps T.Toll.tolls (world_of m self.now) (turn_of slip (Call.Read place) []) (record { answer = read_done result; slip = slip; world = world_of m self.now; buffer = [] }) }
    {
        let place = self.known(place)?;
        let front = self.front();
        Ok(Reading {
            toll: toll_at(front, place),
            next: next_at(front, place),
        })
    }

    /// The sum of all search counts; it stops at 4,294,967,295.
    pub fn tally(&self) -> u32
        ensures answer { result ≡ (state_of self.now).tally }
        ensures promise { (m : Meaning T) (slip : Carrier) → Keeps T.Toll.tolls (world_of m self.now) (turn_of slip Call.Tally []) (record { answer = Answer.Tally result; slip = slip; world = world_of m self.now; buffer = [] }) }
    {
        self.tally
    }
}
