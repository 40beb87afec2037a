//! An inner layer of the planner: the table with the tree, and the ways that it records. Its functions take a table as it is, and some ask something of their caller.
#![tactic(auto)]

// The table and the floor stay two parameters, and the table a plain slice: a floor is shown anew to each call, and with a struct over the slice each of the nineteen functions of the three
// layers that write would have to say that it still lends the same slice, so that seven need not ask for fewer than 65,536 records.

mod record;
pub mod start;
pub mod table;
mod trace;
pub mod way;

pub use record::Record;
pub use trace::Trace;
