//! An inner layer of the planner: the repair of the table's tree after a toll has changed. Its functions take a table as it is, and some ask something of their caller.
#![tactic(auto)]

// The table and the floor stay two parameters, and the table a plain slice, for the reason that `tree` tells.

pub mod cut;
mod shift;

pub use shift::Shift;
