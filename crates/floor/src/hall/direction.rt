ghost use Rattle.std.specs.Prelude.{◌≡◌, ◌+◌, ◌*◌, ◌%◌, ◌<◌};
ghost use Rattle.floor.specs.Directions.{number};

/// A side of a cell; its number is that of the cell's lane through it.
#[derive(Clone, Copy, PartialEq, Eq, Debug)]
pub(super) enum Direction {
    Up = 0,
    Right = 1,
    Down = 2,
    Left = 3,
}

impl Direction {
    /// The side through which a lane leaves its cell.
    pub(super) fn of(lane: u16) -> Self
        ensures { number result ≡ lane % 4 }
    {
        match lane % 4 {
            0 => Direction::Up,
            1 => Direction::Right,
            2 => Direction::Down,
            _ => Direction::Left,
        }
    }

    /// The side across.
    pub(super) fn across(self) -> Self
        ensures { number result ≡ (number self + 2) % 4 }
    {
        match self {
            Direction::Up => Direction::Down,
            Direction::Right => Direction::Left,
            Direction::Down => Direction::Up,
            Direction::Left => Direction::Right,
        }
    }

    /// The lane that leaves a cell through this side.
    pub(super) fn lane_of(self, cell: u16) -> u16
        requires { cell < 1024 }
        ensures { result ≡ 4 * cell + number self }
    {
        4 * cell + self as u16
    }
}
