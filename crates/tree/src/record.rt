ghost use Rattle.std.specs.Prelude.{◌≡◌};
ghost use Rattle.tree.specs.Tree.{entry_of, blank_entry};

/// What the planner keeps of one place: the toll to the target, the next place, whether it is open. Four fields and no enum, as the definitions of a tree have them.
#[derive(Clone, Copy, PartialEq, Eq, Debug)]
pub struct Record<T> {
    pub(crate) toll: Option<T>,
    pub(crate) next: Option<u16>,
    pub(crate) is_open: bool,
    /// A mark that the repair of the tree leaves behind; it means nothing between calls.
    pub(crate) is_cut: bool,
}

impl<T: Copy> Record<T> {
    /// A record of a place outside the tree.
    pub fn blank() -> Self
        ensures { entry_of result ≡ blank_entry }
    {
        Record {
            toll: None,
            next: None,
            is_open: false,
            is_cut: false,
        }
    }
}
