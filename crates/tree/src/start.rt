ghost use Rattle.std.specs.Prelude.{◌≡◌, length, replicate};
ghost use Rattle.tree.specs.Tree.{tree_of, blank_entry, start_tree};

use crate::record::Record;
use crate::table::write;
use toll::Toll;

/// Clears the table.
fn clear<T: Toll>(table: &mut [Record<T>])
    ensures { tree_of table.new ≡ replicate (length table.old) blank_entry }
{
    // By index: `fill_with` does not take a maker of a generic record, and `fill` leaves a generic clone untold.
    for i in 0..table.len() {
        table[i] = Record::blank();
    }
}

/// Puts the target alone into the tree, at zero, and open.
pub fn start<T: Toll>(table: &mut [Record<T>], target: u16)
    ensures { tree_of table.new ≡ start_tree T.Toll.tolls (length table.old) target }
{
    clear(table);
    write(
        table,
        target,
        Record {
            toll: Some(T::zero()),
            next: None,
            is_open: true,
            is_cut: false,
        },
    );
}
