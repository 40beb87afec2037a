//! Compares the planner's routes with plain relaxation to a fixpoint, on floors made by a small generator with a fixed seed.
#![tactic(auto)]

use trial::{Odds, Random, compare_routes};

fn main(rt: HostRuntime) -> anyhow::Result<()> {
    let odds = Odds {
        seconds: 8,
        gates: 9,
        least: 6,
        goes_below: false,
    };
    compare_routes(&rt, rt.alloc(), &mut Random::seeded(20261117, odds))?;
    Ok(())
}
