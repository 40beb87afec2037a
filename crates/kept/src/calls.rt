ghost use Rattle.kept.specs.Fixed.{KeptAll};

use floor::{Floor, Hall};
use planner::{Answer, Call, Carrier, Planner, Record};
use toll::Seconds;

/// Sets up a hall of two rows and three columns, plans a route, halts, makes the cell on the way dearer and plans again.
/// What the last route answers; every call keeps the promise.
pub fn fixed_calls() -> Answer<Seconds>
    ensures { KeptAll result }
{
    let mut hall = match Hall::make(2, 3, Seconds::new(1)) {
        Ok(hall) => hall,
        Err(why) => return Answer::Refused(why),
    };
    let mut table = [Record::<Seconds>::blank(); 6];
    let mut way = [0u16; 6];
    let (mut planner, slip) = Planner::make(&mut table, &hall, 2, 0);
    let (carrier, _) = planner.serve(&mut hall, Carrier::Parked(slip), Call::Route, &mut way);
    let (carrier, _) = planner.serve(&mut hall, carrier, Call::Halt, &mut way);
    let change = Call::Change {
        spot: 1,
        toll: Seconds::new(9),
    };
    let (carrier, _) = planner.serve(&mut hall, carrier, change, &mut way);
    let (_, answer) = planner.serve(&mut hall, carrier, Call::Route, &mut way);
    answer
}
