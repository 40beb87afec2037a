ghost use Rattle.std.specs.Prelude.{◌<◌, ◌≤◌, IfOk};
ghost use Rattle.lanes.specs.Records.{Fits};

use crate::draw::Draw;
use crate::random::Random;
use lanes::{LanePlan, LaneRecord};
use std::alloc::{AllocError, Global};
use toll::Toll;

/// The most lanes of a plan that is drawn.
const LANES: usize = 64;

/// A lane whose ends are places, and may be the same.
pub(crate) fn some_lane<T: Draw>(random: &mut Random, places: u16) -> LaneRecord<T> {
    LaneRecord {
        leaves: random.short(places),
        enters: random.short(places),
        toll: T::drawn(random, T::zero()),
    }
}

/// Keeps a lane if there is room and the records still make a plan with it.
fn keep_if_fit<T: Toll>(
    records: &mut Vec<LaneRecord<T>>,
    places: u16,
    lane: LaneRecord<T>,
) -> Result<(), AllocError>
    ensures { Fits places records.old.items → Fits places records.new.items }
{
    if records.len() < LANES {
        records.push(lane)?;
        if LanePlan::check(u32::from(places), records).is_err() {
            records.pop();
        }
    }
    Ok(())
}

/// Draws lanes, and keeps those with which the records still make a plan.
pub fn some_records<T: Draw>(
    alloc: Global,
    random: &mut Random,
    places: u16,
) -> Result<Vec<LaneRecord<T>>, AllocError>
    ensures fits { 0 < places → places ≤ 1024 → IfOk result (λ records. Fits places records.items) }
{
    let mut records = Vec::new(alloc);
    for _ in 0..random.below(80) {
        let lane = some_lane(random, places);
        keep_if_fit(&mut records, places, lane)?;
    }
    Ok(records)
}
