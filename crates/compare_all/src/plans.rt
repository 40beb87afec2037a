use crate::ledger::Ledger;
use crate::list::{Floors, run_list};
use crate::session::Session;
use lanes::LanePlan;
use std::alloc::{AllocError, Global};
use trial::{Draw, Random, some_records};

/// Another number of places.
fn other_places(random: &mut Random, places: u16) -> u16 {
    if places > 1 && random.below(3) == 0 {
        places - 1
    } else {
        places.saturating_add(2)
    }
}

/// A list of calls on a plan, a twin with other lanes, and one with another number of places.
fn run_plan_list<T: Draw>(session: &mut Session<'_>) -> Result<(), AllocError> {
    let alloc = session.alloc;
    let random = &mut *session.random;
    let places = random.short(16).saturating_add(1);
    let odd_places = other_places(random, places);
    let mut home = some_records::<T>(alloc, random, places)?;
    let mut twin = some_records(alloc, random, places)?;
    let mut odd = some_records(alloc, random, odd_places)?;
    let mut floors = Floors {
        home: LanePlan::make(u32::from(places), &mut home),
        twin: LanePlan::make(u32::from(places), &mut twin),
        odd: LanePlan::make(u32::from(odd_places), &mut odd),
    };
    run_list(session, &mut floors)
}

/// Runs lists on lane plans whose tolls are of one kind.
pub fn run_plan_lists<T: Draw>(
    alloc: Global,
    random: &mut Random,
    lists: u32,
) -> Result<Ledger, AllocError> {
    let mut session = Session::new(alloc, random);
    for _ in 0..lists {
        run_plan_list::<T>(&mut session)?;
    }
    Ok(session.ledger)
}
