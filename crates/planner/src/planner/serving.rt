ghost use Rattle.std.specs.Prelude.{◌≡◌, ℕ, List};
ghost use Rattle.planner.specs.Held.{Held};
ghost use Rattle.planner.specs.Calls.{route_answer};
ghost use Rattle.planner.specs.Served.{world_of, turn_of, served_parked, served_under_way, served_with, served};
ghost use Rattle.planner.specs.Promise.{Keeps};
ghost use Rattle.planner.specs.Handed.{put_place, put_slip, step_place, step_slip, route_carrier, moved_done, place_done, route_done};

use super::Planner;
use crate::answers::{Answer, Route};
use crate::call::Call;
use crate::carrier::Carrier;
use crate::slips::{Parked, UnderWay};
use floor::Floor;
use toll::{Refusal, Toll};

// A function for each call that takes a slip: each is of another slip, and there is no `From` for a pair.

/// What a put hands over and answers.
fn put_done<T: Toll>(done: Result<Parked, (Parked, Refusal)>) -> (Carrier, Answer<T>)
    ensures slip { result.0 ≡ put_slip done }
    ensures answer { result.1 ≡ moved_done (put_place done) }
{
    match done {
        Ok(slip) => (Carrier::Parked(slip), Answer::Done),
        Err((slip, why)) => (Carrier::Parked(slip), Answer::Refused(why)),
    }
}

/// What a step hands over and answers.
fn step_done<T: Toll>(done: Result<UnderWay, (UnderWay, Refusal)>) -> (Carrier, Answer<T>)
    ensures slip { result.0 ≡ step_slip done }
    ensures answer { result.1 ≡ place_done (step_place done) }
{
    match done {
        Ok(slip) => {
            let place = slip.place;
            (Carrier::UnderWay(slip), Answer::Place(place))
        }
        Err((slip, why)) => (Carrier::UnderWay(slip), Answer::Refused(why)),
    }
}

/// What a route hands over and answers.
fn route_done<T: Toll>(
    done: Result<(UnderWay, Route<T>), (Parked, Refusal)>,
) -> (Carrier, Answer<T>)
    ensures slip { result.0 ≡ route_carrier done }
    ensures answer { result.1 ≡ route_done (route_answer done) }
{
    match done {
        Ok((slip, route)) => (Carrier::UnderWay(slip), Answer::Route(route)),
        Err((slip, why)) => (Carrier::Parked(slip), Answer::Refused(why)),
    }
}

impl<'t, T: Toll> Planner<'t, T> {
    /// A call with a parked slip.
    fn serve_parked<F: Floor<Toll = T>>(
        &mut self,
        floor: &mut F,
        slip: Parked,
        call: Call<T>,
        way: &mut [u16],
    ) -> (Carrier, Answer<T>)
        ensures answer { result.1 ≡ (served_parked T.Toll.tolls (world_of (F.Floor.meaning floor.old) self.old) way.old slip.place call).answer }
        ensures slip { result.0 ≡ (served_parked T.Toll.tolls (world_of (F.Floor.meaning floor.old) self.old) way.old slip.place call).slip }
        ensures world { world_of (F.Floor.meaning floor.new) self.new ≡ (served_parked T.Toll.tolls (world_of (F.Floor.meaning floor.old) self.old) way.old slip.place call).world }
        ensures buffer { way.new ≡ (served_parked T.Toll.tolls (world_of (F.Floor.meaning floor.old) self.old) way.old slip.place call).buffer }
        ensures held { Held self.old self.new }
    {
        match call {
            Call::Change { spot, toll } => {
                let done = self.change_by_rules(floor, spot, toll);
                (Carrier::Parked(slip), Answer::from(done))
            }
            Call::Put(place) => put_done(self.put(slip, place)),
            Call::Route => route_done(self.route_by_rules(floor, slip, way)),
            Call::Read(place) => (Carrier::Parked(slip), Answer::from(self.read(place))),
            Call::Tally => (Carrier::Parked(slip), Answer::Tally(self.tally)),
            Call::Step | Call::Halt => (Carrier::Parked(slip), Answer::Refused(Refusal::NotNow)),
        }
    }

    /// A call with a slip that is under way; none of them alters floor, planner or buffer.
    fn serve_under_way<F: Floor<Toll = T>>(
        &self,
        floor: &F,
        slip: UnderWay,
        call: Call<T>,
    ) -> (Carrier, Answer<T>)
        ensures answer { (buffer : List ℕ) → result.1 ≡ (served_under_way (world_of (F.Floor.meaning floor.now) self.now) buffer slip.place call).answer }
        ensures slip { (buffer : List ℕ) → result.0 ≡ (served_under_way (world_of (F.Floor.meaning floor.now) self.now) buffer slip.place call).slip }
        ensures world { (buffer : List ℕ) → world_of (F.Floor.meaning floor.now) self.now ≡ (served_under_way (world_of (F.Floor.meaning floor.now) self.now) buffer slip.place call).world }
        ensures buffer { (buffer : List ℕ) → buffer ≡ (served_under_way (world_of (F.Floor.meaning floor.now) self.now) buffer slip.place call).buffer }
    {
        match call {
            Call::Step => step_done(self.step(floor, slip)),
            Call::Halt => {
                let place = slip.place;
                (Carrier::Parked(self.halt(slip)), Answer::Place(place))
            }
            Call::Read(place) => (Carrier::UnderWay(slip), Answer::from(self.read(place))),
            Call::Tally => (Carrier::UnderWay(slip), Answer::Tally(self.tally)),
            Call::Change { .. } | Call::Put(_) | Call::Route => {
                (Carrier::UnderWay(slip), Answer::Refused(Refusal::NotNow))
            }
        }
    }

    /// Makes whichever call it is given; one that the slip does not allow is refused and alters nothing.
    fn serve_by_rules<F: Floor<Toll = T>>(
        &mut self,
        floor: &mut F,
        carrier: Carrier,
        call: Call<T>,
        way: &mut [u16],
    ) -> (Carrier, Answer<T>)
        ensures answer { result.1 ≡ (served_with T.Toll.tolls (world_of (F.Floor.meaning floor.old) self.old) way.old carrier call).answer }
        ensures slip { result.0 ≡ (served_with T.Toll.tolls (world_of (F.Floor.meaning floor.old) self.old) way.old carrier call).slip }
        ensures world { world_of (F.Floor.meaning floor.new) self.new ≡ (served_with T.Toll.tolls (world_of (F.Floor.meaning floor.old) self.old) way.old carrier call).world }
        ensures buffer { way.new ≡ (served_with T.Toll.tolls (world_of (F.Floor.meaning floor.old) self.old) way.old carrier call).buffer }
        ensures held { Held self.old self.new }
    {
        match carrier {
            Carrier::Parked(slip) => self.serve_parked(floor, slip, call, way),
            Carrier::UnderWay(slip) => self.serve_under_way(floor, slip, call),
        }
    }

    /// Makes whichever call it is given, and keeps the promise: a call that the slip does not allow is refused and alters nothing.
    pub fn serve<F: Floor<Toll = T>>(
        &mut self,
        floor: &mut F,
        carrier: Carrier,
        call: Call<T>,
        way: &mut [u16],
    ) -> (Carrier, Answer<T>)
        ensures answer { result.1 ≡ (served T.Toll.tolls (world_of (F.Floor.meaning floor.old) self.old) (turn_of carrier call way.old)).answer }
        ensures slip { result.0 ≡ (served T.Toll.tolls (world_of (F.Floor.meaning floor.old) self.old) (turn_of carrier call way.old)).slip }
        ensures world { world_of (F.Floor.meaning floor.new) self.new ≡ (served T.Toll.tolls (world_of (F.Floor.meaning floor.old) self.old) (turn_of carrier call way.old)).world }
        ensures buffer { way.new ≡ (served T.Toll.tolls (world_of (F.Floor.meaning floor.old) self.old) (turn_of carrier call way.old)).buffer }
        ensures held { Held self.old self.new }
        ensures promise { Keeps T.Toll.tolls (world_of (F.Floor.meaning floor.old) self.old) (turn_of carrier call way.old) (record { answer = result.1; slip = result.0; world = world_of (F.Floor.meaning floor.new) self.new; buffer = way.new }) }
    {
        let (carrier, answer) = self.serve_by_rules(floor, carrier, call, way);
        floor.laws_hold();
        (carrier, answer)
    }
}
