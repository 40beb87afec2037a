ghost use Rattle.std.specs.Prelude.{◌≤◌, length};

use tree::Record;

/// Plans the way of one carrier to one target, over a table that the caller lends for its whole life.
/// A planner of no place is what a refused set-up leaves: every call refuses.
#[derive(Drop)]
pub struct Planner<'t, T> {
    // Lent whole and kept whole, with the number of places beside it: what lies behind the last place is shown untouched.
    table: &'t mut [Record<T>],
    places: u16,
    target: u16,
    tally: u32,
    ghost fits: { places ≤ length table.now },
}

pub mod calls;
pub mod changing;
pub mod routing;
pub mod serving;
pub mod setup;
