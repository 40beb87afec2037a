ghost use Rattle.std.specs.Prelude.{◌≡◌, ℕ, ◌*◌, ◌<◌, ◌≤◌, length, slice_index};

use super::cells::Cells;
use toll::Seconds;

/// A hall of rows × columns cells, each with a toll in seconds. Each cell is a place and a spot.
#[derive(Drop)]
pub struct Hall {
    rows: u16,
    columns: u16,
    least: Seconds,
    cells: Cells,
    ghost tall: { 0 < rows },
    ghost wide: { 0 < columns },
    ghost few: { rows * columns ≤ 1024 },
    ghost full: { length cells.tolls ≡ 1024 },
    ghost above: { ((k : ℕ) → k < rows * columns → least.value ≤ slice_index cells.tolls k) },
}

mod direction;
pub mod floored;
mod lanes;
mod made;
