ghost use Rattle.std.specs.Prelude.{◌≡◌, ℕ, ◌+◌, ◌*◌, ◌%◌, ◌<◌};
ghost use Rattle.std.specs.Option.{option_map};
ghost use Rattle.std.specs.List.{slice_get};
ghost use Rattle.floor.specs.Rising.{present};
ghost use Rattle.floor.specs.Grid.{next as next_to};
ghost use Rattle.floor.specs.Directions.{number};

use super::Hall;
use super::direction::Direction;

/// The k-th of the numbers that are there.
pub(super) fn pick(found: &[Option<u16>], k: u16) -> Option<u16>
    ensures { result ≡ slice_get (present found.now) k }
{
    // Counted by hand: with `filter_map` and `nth` a search on a hall takes a quarter more instructions.
    let mut left = k;
    for one in found {
        if let Some(lane) = one {
            if left == 0 {
                return Some(*lane);
            }
            left -= 1;
        }
    }
    None
}

// The three steps below ask that the cell is in the hall: the question that takes them has looked it over.

impl Hall {
    /// The number of cells.
    pub(super) fn size(&self) -> u16
        ensures { result ≡ self.now.rows * self.now.columns }
    {
        self.rows * self.columns
    }

    /// The cell beside a cell.
    pub(super) fn next(&self, cell: u16, side: Direction) -> Option<u16>
        requires { cell < self.now.rows * self.now.columns }
        ensures { result ≡ next_to self.now.rows self.now.columns cell (number side) }
    {
        match side {
            Direction::Up => cell.checked_sub(self.columns),
            Direction::Right => (cell % self.columns + 1 < self.columns).then_some(cell + 1),
            Direction::Down => (cell + self.columns < self.size()).then_some(cell + self.columns),
            Direction::Left => (cell % self.columns > 0).then(|| cell - 1),
        }
    }

    /// The lane out of a cell through a side.
    pub(super) fn lane_towards(&self, cell: u16, side: Direction) -> Option<u16>
        requires { cell < self.now.rows * self.now.columns }
        ensures { result ≡ option_map (λ q. 4 * cell + number side) (next_to self.now.rows self.now.columns cell (number side)) }
    {
        self.next(cell, side).map(|_| side.lane_of(cell))
    }

    /// The lane into a cell through a side.
    pub(super) fn lane_back(&self, cell: u16, side: Direction) -> Option<u16>
        requires { cell < self.now.rows * self.now.columns }
        ensures { result ≡ option_map (λ q. 4 * q + (number side + 2) % 4) (next_to self.now.rows self.now.columns cell (number side)) }
    {
        let neighbour = self.next(cell, side)?;
        Some(side.across().lane_of(neighbour))
    }
}
