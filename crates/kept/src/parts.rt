ghost use Rattle.std.specs.Prelude.{◌≡◌, ℕ, ◌≤◌, List, length, Some, None};
ghost use Rattle.planner.specs.Calls.{state_of};
ghost use Rattle.repair.specs.Dropped.{Dropped};
ghost use Rattle.planner.specs.Served.{world_of, turn_of, parked_at, said};
ghost use Rattle.planner.specs.Reachable.{Start, Event, Reachable, last_slip, InOrder};
ghost use Rattle.planner.specs.Promise.{Answered, Expanded};

use floor::Floor;
use planner::{Answer, Call, Carrier, Parked, Planner, UnderWay};
use toll::Toll;

// A function for each part, though their bodies are alike, so that an edit shows which part it breaks.

/// A route with a full-length buffer is answered exactly if some way is passable, and by a cheapest one.
pub fn route_answers<T: Toll, F: Floor<Toll = T>>(
    planner: &mut Planner<'_, T>,
    floor: &mut F,
    slip: Parked,
    way: &mut [u16],
) -> (Carrier, Answer<T>)
    ensures { (start : Start T) (calls : List (Event T)) → Reachable T.Toll.tolls start calls (world_of (F.Floor.meaning floor.old) planner.old) → (F.Floor.meaning floor.old).places ≤ length way.old → Answered T.Toll.tolls (world_of (F.Floor.meaning floor.old) planner.old) slip.place (turn_of (parked_at slip.place) Call.Route way.old) (record { answer = result.1; slip = result.0; world = world_of (F.Floor.meaning floor.new) planner.new; buffer = way.new }) }
{
    let (carrier, route) = planner.serve(floor, Carrier::Parked(slip), Call::Route, way);
    (carrier, route)
}

/// An accepted change drops exactly the places whose recorded way used a lane that became dearer.
pub fn change_drops<T: Toll, F: Floor<Toll = T>>(
    planner: &mut Planner<'_, T>,
    floor: &mut F,
    slip: Parked,
    spot: u32,
    toll: T,
    way: &mut [u16],
) -> (Carrier, Answer<T>)
    ensures { (start : Start T) (calls : List (Event T)) → Reachable T.Toll.tolls start calls (world_of (F.Floor.meaning floor.old) planner.old) → (said result.1).refusal ≡ None → Dropped T.Toll.tolls (state_of planner.old).target (F.Floor.meaning floor.old) (state_of planner.old).tree (F.Floor.meaning floor.new) (state_of planner.new).tree }
{
    let call = Call::Change { spot, toll };
    let (carrier, change) = planner.serve(floor, Carrier::Parked(slip), call, way);
    (carrier, change)
}

/// A route expands the places that the trees before and after it tell, once each, and counts them.
pub fn route_expands<T: Toll, F: Floor<Toll = T>>(
    planner: &mut Planner<'_, T>,
    floor: &mut F,
    slip: Parked,
    way: &mut [u16],
) -> (Carrier, Answer<T>)
    ensures { (start : Start T) (calls : List (Event T)) → Reachable T.Toll.tolls start calls (world_of (F.Floor.meaning floor.old) planner.old) → Expanded T.Toll.tolls (world_of (F.Floor.meaning floor.old) planner.old) (turn_of (parked_at slip.place) Call.Route way.old) (record { answer = result.1; slip = result.0; world = world_of (F.Floor.meaning floor.new) planner.new; buffer = way.new }) }
{
    let (carrier, told) = planner.serve(floor, Carrier::Parked(slip), Call::Route, way);
    (carrier, told)
}

/// With slips in order a step is not refused with 7, 11 or 12.
pub fn step_in_order<T: Toll, F: Floor<Toll = T>>(
    planner: &mut Planner<'_, T>,
    floor: &mut F,
    slip: UnderWay,
    way: &mut [u16],
) -> (Carrier, Answer<T>)
    ensures { (start : Start T) (calls : List (Event T)) → Reachable T.Toll.tolls start calls (world_of (F.Floor.meaning floor.old) planner.old) → InOrder start calls → Carrier.UnderWay slip ≡ last_slip start calls → (n : ℕ) → (said result.1).refusal ≡ Some n → (¬ (n ≡ 7)) × (¬ (n ≡ 11)) × (¬ (n ≡ 12)) }
{
    let (carrier, step) = planner.serve(floor, Carrier::UnderWay(slip), Call::Step, way);
    (carrier, step)
}
