use crate::{Floor, Hall};
use std::test::Fail;
use toll::Seconds;

// The refusal's number where no hall is made.
fn made(rows: u32, columns: u32) -> Result<(), u8> {
    match Hall::make(rows, columns, Seconds::new(7)) {
        Ok(_) => Ok(()),
        Err(why) => Err(why.number()),
    }
}

// Two rows of three cells, each at 7 seconds.
fn small() -> Result<Hall, Fail> {
    Hall::make(2, 3, Seconds::new(7)).map_err(|_| Fail::new("refused"))
}

fn value(toll: Option<Seconds>) -> Option<u32> {
    toll.map(|toll| toll.value())
}

fn set(hall: &mut Hall, spot: u16, seconds: u32) -> Result<(), u8> {
    hall.set_toll(spot, Seconds::new(seconds))
        .map_err(|why| why.number())
}

#[test]
fn sizes(rt: HostRuntime) {
    assert_eq!(rt; made(32, 32), Ok(()));
    assert_eq!(rt; made(1, 1024), Ok(()));
    assert_eq!(rt; made(25, 41), Err(1));
    assert_eq!(rt; made(0, 5), Err(1));
    assert_eq!(rt; made(5, 0), Err(1));
    assert_eq!(rt; made(65536, 65536), Err(1));
    assert_eq!(rt; made(4294967295, 4294967295), Err(1));
}

#[test]
fn lanes_and_estimates(rt: HostRuntime) -> Result<(), Fail> {
    let hall = small()?;
    assert_eq!(rt; hall.places(), 6);
    assert_eq!(rt;
        hall.lane_ends(0),
        None,
        "no lane leads up from the top row"
    );
    assert_eq!(rt; hall.lane_ends(2), Some((0, 3)));
    assert_eq!(rt; hall.lane_into(4, 0), Some(6));
    assert_eq!(rt; hall.lane_into(4, 1), Some(13));
    assert_eq!(rt; hall.lane_into(4, 2), Some(23));
    assert_eq!(rt; hall.lane_into(4, 3), None);
    assert_eq!(rt; value(hall.estimate(0, 5)), Some(21));
    assert_eq!(rt; value(hall.estimate(0, 6)), None);
    Ok(())
}

#[test]
fn one_toll_is_set(rt: HostRuntime) -> Result<(), Fail> {
    let mut hall = small()?;
    assert_eq!(rt; set(&mut hall, 6, 9), Err(5));
    assert_eq!(rt; set(&mut hall, 4, 6), Err(6));
    assert_eq!(rt; value(hall.spot_toll(4)), Some(7));
    assert_eq!(rt; set(&mut hall, 4, 9), Ok(()));
    assert_eq!(rt; value(hall.spot_toll(3)), Some(7));
    assert_eq!(rt; value(hall.spot_toll(4)), Some(9));
    assert_eq!(rt; value(hall.spot_toll(5)), Some(7));
    Ok(())
}
