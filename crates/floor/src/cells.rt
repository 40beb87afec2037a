ghost use Rattle.std.specs.Prelude.{◌≡◌, ◌<◌, replicate, slice_index, slice_set};

// An array, since the unit uses fixed memory. Reading and writing ask for a cell that the hall has looked over.

/// A plain table of tolls in seconds, one for each cell that a hall can have.
#[derive(Drop)]
pub(crate) struct Cells {
    tolls: [u32; 1024],
}

impl Cells {
    /// Each cell at the same toll.
    pub(crate) fn filled(toll: u32) -> Self
        ensures { result.tolls ≡ replicate 1024 toll }
    {
        Cells {
            tolls: [toll; 1024],
        }
    }

    /// The toll of a cell.
    pub(crate) fn toll(&self, cell: u16) -> u32
        requires { cell < 1024 }
        ensures { result ≡ slice_index self.now.tolls cell }
    {
        self.tolls[cell as usize]
    }

    /// Writes the toll of a cell.
    pub(crate) fn store(&mut self, cell: u16, toll: u32)
        requires { cell < 1024 }
        ensures { self.new.tolls ≡ slice_set self.old.tolls cell toll }
    {
        self.tolls[cell as usize] = toll;
    }
}
