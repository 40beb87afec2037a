ghost use Rattle.std.specs.Prelude.{◌≡◌, [], length};
ghost use Rattle.planner.specs.Held.{Held};
ghost use Rattle.planner.specs.Calls.{State, state_of, changed};
ghost use Rattle.repair.specs.Cut.{repaired};
ghost use Rattle.planner.specs.Served.{world_of, turn_of, parked_at};
ghost use Rattle.planner.specs.Handed.{change_done};
ghost use Rattle.planner.specs.Promise.{Keeps};

use super::Planner;
use crate::call::Call;
use crate::slips::Parked;
use floor::Floor;
use repair::Shift;
use repair::cut::{repair, shift};
use toll::{Refusal, Toll};

impl<'t, T: Toll> Planner<'t, T> {
    /// Repairs the tree after a spot's toll has changed.
    fn mend<F: Floor<Toll = T>>(&mut self, floor: &F, spot: u16, shift: Shift)
        ensures target { (state_of self.new).target ≡ (state_of self.old).target }
        ensures tree { (state_of self.new).tree ≡ repaired (F.Floor.meaning floor.now) spot (state_of self.old).target shift (state_of self.old).tree }
        ensures tally { (state_of self.new).tally ≡ (state_of self.old).tally }
        ensures held { Held self.old self.new }
    {
        let target = self.target;
        repair(
            &mut self.table[0..self.places as usize],
            floor,
            target,
            spot,
            shift,
        );
    }

    /// A change by its rules alone.
    pub(super) fn change_by_rules<F: Floor<Toll = T>>(
        &mut self,
        floor: &mut F,
        spot: u32,
        toll: T,
    ) -> Result<(), Refusal>
        ensures answer { result ≡ (changed T.Toll.tolls (F.Floor.meaning floor.old) (state_of self.old) spot toll).answer }
        ensures state { state_of self.new ≡ (changed T.Toll.tolls (F.Floor.meaning floor.old) (state_of self.old) spot toll).state }
        ensures floor { F.Floor.meaning floor.new ≡ (changed T.Toll.tolls (F.Floor.meaning floor.old) (state_of self.old) spot toll).floor }
        ensures held { Held self.old self.new }
    {
        if floor.places() != self.places {
            return Err(Refusal::OtherFloor);
        }
        if spot >= u32::from(floor.spots()) {
            return Err(Refusal::UnknownSpot);
        }
        let spot = spot as u16;
        let old = floor.spot_toll(spot);
        floor.set_toll(spot, toll)?;
        if let Some(old) = old {
            self.mend(floor, spot, shift(old, toll));
        }
        Ok(())
    }

    /// Sets a spot's toll and repairs the tree: a dearer one drops the places whose recorded way uses a lane of the spot, and opens
    /// the places around the gap; a cheaper one opens the places that a lane of the spot enters. It is shown a parked slip.
    pub fn change<F: Floor<Toll = T>>(
        &mut self,
        floor: &mut F,
        slip: &Parked,
        spot: u32,
        toll: T,
    ) -> Result<(), Refusal>
        ensures answer { result ≡ (changed T.Toll.tolls (F.Floor.meaning floor.old) (state_of self.old) spot toll).answer }
        ensures state { state_of self.new ≡ (changed T.Toll.tolls (F.Floor.meaning floor.old) (state_of self.old) spot toll).state }
        ensures floor { F.Floor.meaning floor.new ≡ (changed T.Toll.tolls (F.Floor.meaning floor.old) (state_of self.old) spot toll).floor }
        ensures held { Held self.old self.new }
        ensures promise { Keeps T.Toll.tolls (world_of (F.Floor.meaning floor.old) self.old) (turn_of (parked_at slip.now.place) (Call.Change spot toll) []) (record { answer = change_done result; slip = parked_at slip.now.place; world = world_of (F.Floor.meaning floor.new) self.new; buffer = [] }) }
    {
        let done = self.change_by_rules(floor, spot, toll);
        floor.laws_hold();
        done
    }
}
