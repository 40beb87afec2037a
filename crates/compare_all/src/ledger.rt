use planner::Answer;
use std::alloc::{AllocError, Global};
use std::collections::BTreeMap;
use std::fmt;
use toll::{Refusal, Toll};

/// How often a check was made, and how often it failed.
#[derive(Clone, Copy, Default)]
pub struct Check {
    made: usize,
    failed: usize,
}

/// What a call is held against.
#[derive(Clone, Copy, Default)]
pub struct Checks {
    /// The model of the rules: answer, slip, table, tally, floor and buffer.
    pub rules: Check,
    /// Plain relaxation: the toll of a route, its way, or that there is none.
    pub relaxation: Check,
    /// Which places a change drops.
    pub dropped: Check,
    /// Which places a route expands.
    pub expanded: Check,
    /// The refusals that cannot come while slips and floor are in order.
    pub order: Check,
}

/// What went through the lists.
#[derive(Clone, Copy, Default)]
pub struct Counts {
    pub lists: usize,
    pub calls: usize,
    pub routes: usize,
    pub dropped: usize,
    pub expanded: usize,
    pub exchanged: usize,
    pub strays: usize,
}

/// What went through the lists, how often each refusal came, and how often a check failed.
#[derive(Drop)]
pub struct Ledger {
    pub counts: Counts,
    pub checks: Checks,
    refusals: BTreeMap<Refusal, usize>,
}

pub fn count(number: &mut usize, more: usize) {
    *number = number.saturating_add(more);
}

impl Check {
    /// Notes that the check was made, and whether it holds.
    pub fn note(&mut self, holds: bool) {
        count(&mut self.made, 1);
        if !holds {
            count(&mut self.failed, 1);
        }
    }
}

impl Checks {
    /// Writes a number of each check, and their sum.
    fn write<W: fmt::Write, F: Fn(Check) -> usize>(
        self,
        f: &mut fmt::Formatter<W>,
        number: F,
    ) -> fmt::Result
        requires { F.IsAlwaysCallable number }
    {
        let rules = number(self.rules);
        let relaxation = number(self.relaxation);
        let dropped = number(self.dropped);
        let expanded = number(self.expanded);
        let order = number(self.order);
        let sum = [rules, relaxation, dropped, expanded, order]
            .iter()
            .fold(0usize, |sum, number| sum.saturating_add(*number));
        write!(
            f,
            "{sum} (rules {rules}, relaxation {relaxation}, places dropped {dropped}, places expanded {expanded}, order {order})"
        )
    }
}

impl Ledger {
    pub fn new(alloc: Global) -> Self {
        Ledger {
            counts: Counts::default(),
            checks: Checks::default(),
            refusals: BTreeMap::new(alloc),
        }
    }

    /// Notes a refusal.
    pub fn refuse(&mut self, why: Refusal) -> Result<(), AllocError> {
        count(self.refusals.entry(why)?.or_insert(0), 1);
        Ok(())
    }

    /// Notes what was answered.
    pub fn answer<T: Toll>(&mut self, answer: Answer<T>) -> Result<(), AllocError> {
        count(&mut self.counts.calls, 1);
        match answer {
            Answer::Refused(why) => self.refuse(why)?,
            Answer::Route(_) => count(&mut self.counts.routes, 1),
            _ => {}
        }
        Ok(())
    }
}

impl fmt::Display for Ledger {
    fn fmt<W: fmt::Write>(&self, f: &mut fmt::Formatter<W>) -> fmt::Result {
        let counts = self.counts;
        writeln!(f, "{} lists, {} calls", counts.lists, counts.calls)?;
        writeln!(
            f,
            "  floors exchanged: {}; slips exchanged: {}",
            counts.exchanged, counts.strays
        )?;
        write!(f, "  refusals:")?;
        for (why, times) in &self.refusals {
            write!(f, " {}: {times};", why.number())?;
        }
        writeln!(
            f,
            "\n  routes answered: {}; places dropped: {}, expanded: {}",
            counts.routes, counts.dropped, counts.expanded
        )?;
        write!(f, "  checks: ")?;
        self.checks.write(f, |check| check.made)?;
        write!(f, "\n  differences: ")?;
        self.checks.write(f, |check| check.failed)
    }
}
