use crate::standing::Standing;
use floor::Floor;
use planner::Call;
use trial::{Draw, Random};

/// A number below the bound, or now and then one that is not.
pub fn some_number(random: &mut Random, bound: u16) -> u32 {
    let bound = u32::from(bound);
    let within = random.below(bound);
    match random.below(40) {
        0 => bound,
        1 => within.saturating_add(65536),
        2 => u32::MAX,
        3 => random.next(),
        _ => within,
    }
}

/// A change of a spot that may be unknown.
fn some_change<T: Draw, F: Floor<Toll = T>>(random: &mut Random, floor: &F) -> Call<T> {
    let spot = some_number(random, floor.spots());
    let least = u16::try_from(spot)
        .ok()
        .and_then(|spot| floor.least_toll(spot));
    let toll = T::drawn(random, least.unwrap_or(T::zero()));
    Call::Change { spot, toll }
}

/// Draws a call with its numbers, more often one that the carrier is allowed.
pub fn some_call<T: Draw, F: Floor<Toll = T>>(
    random: &mut Random,
    floor: &F,
    standing: Standing,
) -> Call<T> {
    match (standing, random.below(20)) {
        (Standing::Parked(_), 0..=6) | (Standing::UnderWay(_), 15) => some_change(random, floor),
        (Standing::Parked(_), 7..=10) | (Standing::UnderWay(_), 16) => {
            Call::Put(some_number(random, floor.places()))
        }
        (Standing::Parked(_), 11..=15) | (Standing::UnderWay(_), 17) => Call::Route,
        (Standing::Parked(_), 16) | (Standing::UnderWay(_), 0..=5) => Call::Step,
        (Standing::Parked(_), 17) | (Standing::UnderWay(_), 6..=14) => Call::Halt,
        (_, 18) => Call::Read(some_number(random, floor.places())),
        _ => Call::Tally,
    }
}
