ghost use Rattle.std.specs.Prelude.{◌≡◌, ◌*◌, is_ok, IfOk};
ghost use Rattle.floor.specs.Grid.{hall_size, hall_meaning};

use crate::draw::Draw;
use crate::random::Random;
use floor::{Floor, Hall};
use toll::{Refusal, Seconds};

fn some_least(random: &mut Random) -> u32 {
    match random.below(random.odds.least) {
        0 => 0,
        1 => u32::MAX - 5,
        _ => random.below(3),
    }
}

/// A hall of that size, with a least toll of its own, and about half of its cells set.
pub fn some_hall(random: &mut Random, rows: u32, columns: u32) -> Result<Hall, Refusal>
    ensures size { is_ok result ≡ hall_size rows columns }
    ensures places { IfOk result (λ hall. (hall_meaning hall).places ≡ rows * columns) }
{
    let least = Seconds::new(some_least(random));
    let mut hall = Hall::make(rows, columns, least)?;
    for cell in 0..hall.places() {
        if random.below(2) == 0 {
            // A toll below the least is refused, and the cell stays as it is.
            let _ = hall.set_toll(cell, Seconds::drawn(random, least));
        }
    }
    Ok(hall)
}
