//! The text of a job: its lines are read, and its answers written.
#![tactic(auto)]

pub mod cut;
pub mod line;
pub mod lines;
pub mod number;
pub mod parse;
pub mod text;
