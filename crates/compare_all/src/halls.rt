use crate::ledger::Ledger;
use crate::list::{Floors, run_list};
use crate::session::Session;
use std::alloc::{AllocError, Global};
use trial::{Random, some_hall};

/// A number of rows that is another.
fn other_rows(random: &mut Random, rows: u32) -> u32 {
    if rows > 1 && random.below(3) == 0 {
        rows - 1
    } else {
        rows.saturating_add(1)
    }
}

/// A list of calls on a hall, its twin with rows and columns exchanged, and one with another number of rows.
fn run_hall_list(session: &mut Session<'_>) -> Result<(), AllocError> {
    let random = &mut *session.random;
    let rows = random.below(6).saturating_add(1);
    let columns = random.below(6).saturating_add(1);
    let odd_rows = other_rows(random, rows);
    if let (Ok(home), Ok(twin), Ok(odd)) = (
        some_hall(random, rows, columns),
        some_hall(random, columns, rows),
        some_hall(random, odd_rows, columns),
    ) {
        run_list(session, &mut Floors { home, twin, odd })?;
    }
    Ok(())
}

// Not one function with the lists on plans: the two draw in orders of their own, which the stored output holds.

/// Runs lists on halls.
pub fn run_hall_lists(
    alloc: Global,
    random: &mut Random,
    lists: u32,
) -> Result<Ledger, AllocError> {
    let mut session = Session::new(alloc, random);
    for _ in 0..lists {
        run_hall_list(&mut session)?;
    }
    Ok(session.ledger)
}
