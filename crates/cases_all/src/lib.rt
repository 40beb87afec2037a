//! The worked cases: one table, proved by one statement.
#![tactic(auto)]

ghost use Rattle.cases_all.specs.Table.{WorkedCases};

/// Does nothing; its contract says that every row of the table of worked cases holds.
pub fn worked_cases()
    ensures { WorkedCases }
{}
