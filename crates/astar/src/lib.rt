//! An inner layer of the planner: the search over the table's tree. Its functions take a table as it is, and some ask something of their caller.
#![tactic(auto)]

// The table and the floor stay two parameters, and the table a plain slice, for the reason that `tree` tells.

pub mod expand;
mod key;
mod outcome;
pub mod search;

pub use key::Key;
pub use outcome::Outcome;
