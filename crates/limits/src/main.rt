//! The listed hall of two rows and three columns at its limits: buffers, places and tolls that are just within and just outside.
#![tactic(auto)]

use anyhow::{Result, anyhow, bail};
use floor::Hall;
use planner::{Parked, Planner, Record};
use std::fmt::Display;
use toll::{Refusal, Seconds};

/// Prints what was tried, and whether it was accepted.
fn say<T: Drop>(
    rt: &impl Print,
    tried: impl Display + Drop,
    answer: Result<T, Refusal>,
) -> Result<()> {
    match answer {
        Ok(_) => println!(rt; "{tried}: ok")?,
        Err(why) => println!(rt; "{tried}: no {}", why.number())?,
    }
    Ok(())
}

/// A toll of 0 seconds is below the least toll of cell 1, one of 9 is not.
fn change(
    rt: &impl Print,
    planner: &mut Planner<'_, Seconds>,
    hall: &mut Hall,
    slip: &Parked,
) -> Result<()> {
    for (cell, seconds) in [(1, 0), (6, 9), (1, 9)] {
        let answer = planner.change(hall, slip, cell, Seconds::new(seconds));
        say(rt, format_args!("cell {cell} at {seconds} seconds"), answer)?;
    }
    Ok(())
}

/// Place 5 can be read, place 6 cannot.
fn read(rt: &impl Print, planner: &Planner<'_, Seconds>) -> Result<()> {
    for place in 5..7u32 {
        say(
            rt,
            format_args!("reading place {place}"),
            planner.read(place),
        )?;
    }
    Ok(())
}

/// A buffer of five entries is too short for six places, one of six is not. A route, a step, a halt.
fn drive(
    rt: &impl Print,
    planner: &mut Planner<'_, Seconds>,
    hall: &Hall,
    slip: Parked,
) -> Result<Parked> {
    let Err((slip, why)) = planner.route(hall, slip, &mut [0; 5]) else {
        bail!("a route with 5 entries is answered");
    };
    println!(rt; "a route with 5 entries: no {}", why.number())?;
    let Ok((slip, route)) = planner.route(hall, slip, &mut [0; 6]) else {
        bail!("a route with 6 entries is refused");
    };
    println!(rt;
        "a route with 6 entries: ok {} {}",
        route.toll.value(),
        route.count
    )?;
    let Ok(slip) = planner.step(hall, slip) else {
        bail!("a step is refused");
    };
    println!(rt; "a step: ok {}", slip.place())?;
    Ok(planner.halt(slip))
}

fn run(rt: &impl Print) -> Result<()> {
    let mut hall = Hall::make(2, 3, Seconds::new(1)).map_err(|why| anyhow!(
        "no hall: {}",
        why.number()
    ))?;
    let mut table = [Record::<Seconds>::blank(); 6];
    say(
        rt,
        "a table of 5 records",
        Planner::check(&table[..5], &hall, 2, 0),
    )?;
    for target in [6, 2] {
        say(
            rt,
            format_args!("a target at place {target}"),
            Planner::check(&table, &hall, target, 0),
        )?;
    }
    let (mut planner, slip) = Planner::make(&mut table, &hall, 2, 0);
    read(rt, &planner)?;
    let slip = drive(rt, &mut planner, &hall, slip)?;
    change(rt, &mut planner, &mut hall, &slip)
}

fn main(rt: HostRuntime) -> Result<()> {
    run(&rt)
}
