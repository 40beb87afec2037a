ghost use Rattle.std.specs.Prelude.{◌≡◌, [], length, drop, Ok};
ghost use Rattle.astar.specs.Sound.{Sound};
ghost use Rattle.planner.specs.Served.{world_of};
ghost use Rattle.planner.specs.Reachable.{Reachable};
ghost use Rattle.planner.specs.Calls.{state_of, set_up_answer, set_up_state};

use super::Planner;
use crate::slips::Parked;
use floor::Floor;
use toll::{Refusal, Toll};
use tree::Record;
use tree::start::start;

impl<'t, T: Toll> Planner<'t, T> {
    /// Whether a planner can be made with this table on this floor.
    pub fn check<F: Floor<Toll = T>>(
        table: &[Record<T>],
        floor: &F,
        target: u32,
        place: u32,
    ) -> Result<(), Refusal>
        ensures { result ≡ set_up_answer (length table.now) (F.Floor.meaning floor.now).places target place }
    {
        let places = floor.places();
        if table.len() < places as usize {
            return Err(Refusal::ShortTable);
        }
        if target < u32::from(places) && place < u32::from(places) {
            Ok(())
        } else {
            Err(Refusal::NoStart)
        }
    }

    /// A planner with the target alone in its tree, and a parked slip at the carrier's place.
    /// Where the check refuses, it is a planner of no place, and the table stays as it was.
    pub fn make<F: Floor<Toll = T>>(
        table: &'t mut [Record<T>],
        floor: &F,
        target: u32,
        place: u32,
    ) -> (Planner<'t, T>, Parked)
        ensures planner { state_of result.0 ≡ set_up_state T.Toll.tolls (set_up_answer (length table.old) (F.Floor.meaning floor.now).places target place) (F.Floor.meaning floor.now).places target }
        ensures behind { drop result.0.places result.0.table.now ≡ drop result.0.places table.old }
        ensures lender { result.0.table.ghost_name ≡ table.entry.ghost_name }
        ensures slip { result.1.place ≡ place }
        ensures reachable { set_up_answer (length table.old) (F.Floor.meaning floor.now).places target place ≡ Ok tt → Reachable T.Toll.tolls (record { floor = F.Floor.meaning floor.now; records = length table.old; target = target; place = place }) [] (world_of (F.Floor.meaning floor.now) result.0) }
        ensures sound { set_up_answer (length table.old) (F.Floor.meaning floor.now).places target place ≡ Ok tt → Sound T.Toll.tolls (F.Floor.meaning floor.now) target (state_of result.0).tree }
    {
        floor.laws_hold();
        match Self::check(table, floor, target, place) {
            Ok(()) => {
                let places = floor.places();
                let target = target as u16;
                start(&mut table[0..places as usize], target);
                (
                    Planner {
                        table,
                        places,
                        target,
                        tally: 0,
                    },
                    Parked { place },
                )
            }
            Err(_) => (
                Planner {
                    table,
                    places: 0,
                    target: 0,
                    tally: 0,
                },
                Parked { place },
            ),
        }
    }
}
