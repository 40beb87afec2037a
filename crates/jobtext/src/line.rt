ghost use Rattle.std.specs.Prelude.{◌≡◌};
ghost use Rattle.jobtext.specs.LineTexts.{letter};

/// A line of a job; above each, how it is written.
#[derive(Clone, Copy, PartialEq, Eq, Debug)]
pub enum Line {
    /// F rows columns least target place
    Floor {
        rows: u32,
        columns: u32,
        least: u32,
        target: u32,
        place: u32,
    },
    /// C spot toll
    Change {
        spot: u32,
        toll: u32,
    },
    /// P place
    Put(u32),
    /// R
    Route,
    /// S
    Step,
    /// H
    Halt,
    /// Q place
    Query(u32),
    /// T
    Tally,
}

impl Line {
    /// The letter that the line begins with.
    pub fn letter(&self) -> char
        ensures { result ≡ letter self.now }
    {
        // A `char`: lines are decided by letter and standing together, as a rule of the project.
        match self {
            Line::Floor { .. } => 'F',
            Line::Change { .. } => 'C',
            Line::Put(_) => 'P',
            Line::Route => 'R',
            Line::Step => 'S',
            Line::Halt => 'H',
            Line::Query(_) => 'Q',
            Line::Tally => 'T',
        }
    }
}
