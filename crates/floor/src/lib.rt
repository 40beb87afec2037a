//! Floors: places, lanes between them, spots with tolls. The trait `Floor` says what every floor
//! owes; `Hall` is a floor of cells in rows and columns.
#![tactic(auto)]

mod cells;
mod floor;
mod hall;
mod lanes;
#[cfg(test)]
mod tests;

pub use floor::Floor;
pub use hall::Hall;
pub use lanes::Lanes;
