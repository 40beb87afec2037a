//! Compares the planner with programs that share no code with it, on floors made by a small generator with a fixed seed: single
//! routes with plain relaxation to a fixpoint, and lists of all calls with a model of the rules, with relaxation, and with what
//! a change drops and a route expands.
#![tactic(auto)]

mod calls;
mod halls;
mod ledger;
mod list;
mod manner;
mod model;
mod picture;
mod plans;
mod scene;
mod session;
mod standing;
mod turn;
mod ways;

use halls::run_hall_lists;
use plans::run_plan_lists;
use toll::{Gates, Seconds};
use trial::{Odds, Random, compare_routes};

const ODDS: Odds = Odds {
    seconds: 20,
    gates: 16,
    least: 10,
    goes_below: true,
};

fn run(rt: &HostRuntime) -> anyhow::Result<()> {
    let alloc = rt.alloc();
    let mut random = Random::seeded(20261117, ODDS);
    compare_routes(rt, alloc, &mut random)?;
    let halls = run_hall_lists(alloc, &mut random, 400)?;
    println!(rt; "halls in seconds: {halls}")?;
    let gates = run_plan_lists::<Gates>(alloc, &mut random, 400)?;
    println!(rt; "lane plans in gates: {gates}")?;
    let seconds = run_plan_lists::<Seconds>(alloc, &mut random, 400)?;
    println!(rt; "lane plans in seconds: {seconds}")?;
    Ok(())
}

fn main(rt: HostRuntime) -> anyhow::Result<()> {
    run(&rt)
}
