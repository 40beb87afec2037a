ghost use Rattle.floor.specs.Halls.{HallMade};

use super::Hall;
use crate::cells::Cells;
use toll::{Refusal, Seconds};

impl Hall {
    /// A hall with each cell at its least toll; refused where rows or columns are 0 or there are more than 1,024 cells.
    pub fn make(rows: u32, columns: u32, least: Seconds) -> Result<Hall, Refusal>
        ensures { HallMade rows columns least result }
    {
        let size = rows.saturating_mul(columns);
        if size == 0 || size > 1024 {
            return Err(Refusal::FloorSize);
        }
        Ok(Hall {
            rows: rows as u16,
            columns: columns as u16,
            least,
            cells: Cells::filled(least.value()),
        })
    }
}
