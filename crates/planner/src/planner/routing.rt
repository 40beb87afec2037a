ghost use Rattle.std.specs.Prelude.{◌≡◌, ◌<◌, ◌≤◌, length};
ghost use Rattle.tree.specs.Tree.{tree_of};
ghost use Rattle.tree.specs.Ways.{borne_out};
ghost use Rattle.astar.specs.Search.{seek};
ghost use Rattle.planner.specs.Held.{Held};
ghost use Rattle.planner.specs.RouteLaws.{AnswersBelowShut, RouteLaws};
ghost use Rattle.planner.specs.Calls.{state_of, way_answer, way_buffer, search_answer, search_buffer, routed, route_answer, route_slip};
ghost use Rattle.planner.specs.Served.{world_of, turn_of, slip_by, parked_at, under_way_at};
ghost use Rattle.planner.specs.Handed.{route_carrier, route_done};
ghost use Rattle.planner.specs.Promise.{Expanded, Keeps};

use super::Planner;
use crate::answers::Route;
use crate::call::Call;
use crate::slips::{Parked, UnderWay};
use astar::Outcome;
use astar::search::search;
use floor::Floor;
use toll::{Refusal, Toll};
use tree::Record;
use tree::way::{borne_out, write_way};

/// The answer after a solved search: the recorded way, if the floor bears it out, goes to the front of the buffer.
fn follow<T: Toll, F: Floor<Toll = T>>(
    table: &[Record<T>],
    floor: &F,
    target: u16,
    from: u16,
    count: u32,
    way: &mut [u16],
) -> Result<Route<T>, Refusal>
    requires { (0 < length table.now) × ((length table.now < 65536) × (length table.now ≤ length way.old)) }
    ensures answer { result ≡ way_answer count (borne_out T.Toll.tolls (F.Floor.meaning floor.now) (tree_of table.now) target from) }
    ensures buffer { way.new ≡ way_buffer from way.old (borne_out T.Toll.tolls (F.Floor.meaning floor.now) (tree_of table.now) target from) }
{
    let Some(trace) = borne_out(table, floor, target, from) else {
        return Err(Refusal::BrokenWay);
    };
    let length = trace.lanes + 1;
    write_way(table, from, length, way);
    Ok(Route {
        toll: trace.toll,
        count,
        length,
    })
}

/// Searches and follows the recorded way; answers the search's count too, which counts on a refusal as well.
fn plan<T: Toll, F: Floor<Toll = T>>(
    table: &mut [Record<T>],
    floor: &F,
    target: u16,
    from: u16,
    way: &mut [u16],
) -> (u32, Result<Route<T>, Refusal>)
    requires { (length table.old ≡ (F.Floor.meaning floor.now).places) × (length table.old ≤ length way.old) }
    ensures count { result.0 ≡ length (seek T.Toll.tolls (F.Floor.meaning floor.now) from (length table.old) (tree_of table.old)).expanded }
    ensures table { tree_of table.new ≡ (seek T.Toll.tolls (F.Floor.meaning floor.now) from (length table.old) (tree_of table.old)).tree }
    ensures answer { result.1 ≡ search_answer T.Toll.tolls (F.Floor.meaning floor.now) target from (seek T.Toll.tolls (F.Floor.meaning floor.now) from (length table.old) (tree_of table.old)) (seek T.Toll.tolls (F.Floor.meaning floor.now) from (length table.old) (tree_of table.old)).outcome }
    ensures buffer { way.new ≡ search_buffer T.Toll.tolls (F.Floor.meaning floor.now) target from way.old (seek T.Toll.tolls (F.Floor.meaning floor.now) from (length table.old) (tree_of table.old)) (seek T.Toll.tolls (F.Floor.meaning floor.now) from (length table.old) (tree_of table.old)).outcome }
{
    floor.laws_hold();
    let (outcome, count) = search(table, floor, from);
    match outcome {
        Outcome::Solved => (count, follow(table, floor, target, from, count, way)),
        Outcome::NoWay => (count, Err(Refusal::NoWay)),
    }
}

/// An answered route turns the parked slip into one under way; a refused one hands it back.
fn hand_over<T: Toll>(
    slip: Parked,
    answer: Result<Route<T>, Refusal>,
) -> Result<(UnderWay, Route<T>), (Parked, Refusal)>
    ensures answer { route_answer result ≡ answer }
    ensures slip { route_slip result ≡ slip.place }
    ensures carrier { route_carrier result ≡ slip_by (λ a. under_way_at slip.place) (parked_at slip.place) answer }
{
    match answer {
        Ok(route) => Ok((UnderWay { place: slip.place }, route)),
        Err(why) => Err((slip, why)),
    }
}

impl<'t, T: Toll> Planner<'t, T> {
    /// Plans the way from the slip's place to the target, and writes its places to the front of the buffer.
    /// A refusal hands the same slip back; one that comes before the search leaves everything as it was.
    pub fn route<F: Floor<Toll = T>>(
        &mut self,
        floor: &F,
        slip: Parked,
        way: &mut [u16],
    ) -> Result<(UnderWay, Route<T>), (Parked, Refusal)>
        ensures answer { route_answer result ≡ (routed T.Toll.tolls (F.Floor.meaning floor.now) (state_of self.old) slip.place way.old).answer }
        ensures state { state_of self.new ≡ (routed T.Toll.tolls (F.Floor.meaning floor.now) (state_of self.old) slip.place way.old).state }
        ensures buffer { way.new ≡ (routed T.Toll.tolls (F.Floor.meaning floor.now) (state_of self.old) slip.place way.old).buffer }
        ensures slip { route_slip result ≡ slip.place }
        ensures carrier { route_carrier result ≡ slip_by (λ a. under_way_at slip.place) (parked_at slip.place) (routed T.Toll.tolls (F.Floor.meaning floor.now) (state_of self.old) slip.place way.old).answer }
        ensures held { Held self.old self.new }
        ensures laws { RouteLaws T.Toll.tolls (F.Floor.meaning floor.now) (state_of self.old) slip.place way.old }
        ensures below { AnswersBelowShut T.Toll.tolls (F.Floor.meaning floor.now) (state_of self.old) (route_answer result) }
        ensures expanded { (state_of self.old).tally ≤ 4294967295 → Expanded T.Toll.tolls (world_of (F.Floor.meaning floor.now) self.old) (turn_of (parked_at slip.place) Call.Route way.old) (record { answer = route_done (route_answer result); slip = route_carrier result; world = world_of (F.Floor.meaning floor.now) self.new; buffer = way.new }) }
        ensures promise { Keeps T.Toll.tolls (world_of (F.Floor.meaning floor.now) self.old) (turn_of (parked_at slip.place) Call.Route way.old) (record { answer = route_done (route_answer result); slip = route_carrier result; world = world_of (F.Floor.meaning floor.now) self.new; buffer = way.new }) }
    {
        floor.laws_hold();
        self.route_by_rules(floor, slip, way)
    }

    /// A route by its rules alone.
    pub(super) fn route_by_rules<F: Floor<Toll = T>>(
        &mut self,
        floor: &F,
        slip: Parked,
        way: &mut [u16],
    ) -> Result<(UnderWay, Route<T>), (Parked, Refusal)>
        ensures answer { route_answer result ≡ (routed T.Toll.tolls (F.Floor.meaning floor.now) (state_of self.old) slip.place way.old).answer }
        ensures state { state_of self.new ≡ (routed T.Toll.tolls (F.Floor.meaning floor.now) (state_of self.old) slip.place way.old).state }
        ensures buffer { way.new ≡ (routed T.Toll.tolls (F.Floor.meaning floor.now) (state_of self.old) slip.place way.old).buffer }
        ensures slip { route_slip result ≡ slip.place }
        ensures carrier { route_carrier result ≡ slip_by (λ a. under_way_at slip.place) (parked_at slip.place) (routed T.Toll.tolls (F.Floor.meaning floor.now) (state_of self.old) slip.place way.old).answer }
        ensures held { Held self.old self.new }
    {
        let answer = self.route_from(floor, slip.place, way);
        hand_over(slip, answer)
    }

    /// Plans the way from a place; what the search expanded counts on a refusal too.
    fn route_from<F: Floor<Toll = T>>(
        &mut self,
        floor: &F,
        place: u32,
        way: &mut [u16],
    ) -> Result<Route<T>, Refusal>
        ensures answer { result ≡ (routed T.Toll.tolls (F.Floor.meaning floor.now) (state_of self.old) place way.old).answer }
        ensures state { state_of self.new ≡ (routed T.Toll.tolls (F.Floor.meaning floor.now) (state_of self.old) place way.old).state }
        ensures buffer { way.new ≡ (routed T.Toll.tolls (F.Floor.meaning floor.now) (state_of self.old) place way.old).buffer }
        ensures held { Held self.old self.new }
    {
        if floor.places() != self.places {
            return Err(Refusal::OtherFloor);
        }
        if way.len() < self.places as usize {
            return Err(Refusal::ShortBuffer);
        }
        let place = self.known(place)?;
        let target = self.target;
        let front = &mut self.table[0..self.places as usize];
        let (count, answer) = plan(front, floor, target, place, way);
        self.tally = self.tally.saturating_add(count);
        answer
    }
}
