use floor::Floor;
use planner::{Answer, Call, Carrier, Parked, Planner, UnderWay};
use toll::Toll;

/// How a call is made: through the one call for all, or by its own name. It is drawn with the call and kept, so it is no closure.
#[derive(Clone, Copy, PartialEq, Eq, Debug)]
pub enum Manner {
    Served,
    Direct,
}

fn change<'t, T: Toll, F: Floor<Toll = T>>(
    planner: &mut Planner<'t, T>,
    floor: &mut F,
    slip: Parked,
    spot: u32,
    toll: T,
) -> (Carrier, Answer<T>) {
    let answer = Answer::from(planner.change(floor, &slip, spot, toll));
    (Carrier::Parked(slip), answer)
}

fn put<'t, T: Toll>(planner: &Planner<'t, T>, slip: Parked, place: u32) -> (Carrier, Answer<T>) {
    match planner.put(slip, place) {
        Ok(slip) => (Carrier::Parked(slip), Answer::Done),
        Err((slip, why)) => (Carrier::Parked(slip), Answer::Refused(why)),
    }
}

fn route<'t, T: Toll, F: Floor<Toll = T>>(
    planner: &mut Planner<'t, T>,
    floor: &F,
    slip: Parked,
    way: &mut [u16],
) -> (Carrier, Answer<T>) {
    match planner.route(floor, slip, way) {
        Ok((slip, route)) => (Carrier::UnderWay(slip), Answer::Route(route)),
        Err((slip, why)) => (Carrier::Parked(slip), Answer::Refused(why)),
    }
}

fn step<'t, T: Toll, F: Floor<Toll = T>>(
    planner: &Planner<'t, T>,
    floor: &F,
    slip: UnderWay,
) -> (Carrier, Answer<T>) {
    match planner.step(floor, slip) {
        Ok(slip) => {
            let place = slip.place();
            (Carrier::UnderWay(slip), Answer::Place(place))
        }
        Err((slip, why)) => (Carrier::UnderWay(slip), Answer::Refused(why)),
    }
}

fn halt<'t, T: Toll>(planner: &Planner<'t, T>, slip: UnderWay) -> (Carrier, Answer<T>) {
    let slip = planner.halt(slip);
    let place = slip.place();
    (Carrier::Parked(slip), Answer::Place(place))
}

/// A call by its own name; what the slip cannot be shown to is served.
fn call_directly<'t, T: Toll, F: Floor<Toll = T>>(
    planner: &mut Planner<'t, T>,
    floor: &mut F,
    carrier: Carrier,
    call: Call<T>,
    way: &mut [u16],
) -> (Carrier, Answer<T>) {
    match carrier {
        Carrier::Parked(slip) => match call {
            Call::Change { spot, toll } => change(planner, floor, slip, spot, toll),
            Call::Put(place) => put(planner, slip, place),
            Call::Route => route(planner, floor, slip, way),
            _ => planner.serve(floor, Carrier::Parked(slip), call, way),
        },
        Carrier::UnderWay(slip) => match call {
            Call::Step => step(planner, floor, slip),
            Call::Halt => halt(planner, slip),
            _ => planner.serve(floor, Carrier::UnderWay(slip), call, way),
        },
    }
}

/// Makes a call.
pub fn make_call<'t, T: Toll, F: Floor<Toll = T>>(
    planner: &mut Planner<'t, T>,
    floor: &mut F,
    carrier: Carrier,
    call: Call<T>,
    manner: Manner,
    way: &mut [u16],
) -> (Carrier, Answer<T>) {
    match (manner, call) {
        (Manner::Served, _) => planner.serve(floor, carrier, call, way),
        (Manner::Direct, Call::Read(place)) => (carrier, Answer::from(planner.read(place))),
        (Manner::Direct, Call::Tally) => (carrier, Answer::Tally(planner.tally())),
        (Manner::Direct, _) => call_directly(planner, floor, carrier, call, way),
    }
}
