use crate::ledger::Ledger;
use std::alloc::Global;
use trial::Random;

/// What all lists on one kind of floor share: the memory, the random numbers, and the ledger.
#[derive(Drop)]
pub struct Session<'r> {
    pub alloc: Global,
    pub random: &'r mut Random,
    pub ledger: Ledger,
}

impl<'r> Session<'r> {
    pub fn new(alloc: Global, random: &'r mut Random) -> Self {
        Session {
            alloc,
            random,
            ledger: Ledger::new(alloc),
        }
    }
}
