ghost use Rattle.std.specs.Prelude.{◌≡◌, ◌<◌, length};
ghost use Rattle.tree.specs.Tree.{tree_of, alter, marks_of, opened_if};
ghost use Rattle.repair.specs.Cut.{shift_of, by_place, leads as leads_from, joins as joined_by, uses_spot, drops as dropped_by, marks, leaves_marked, beside_marked, entered_by, cut_at, repaired};

use crate::shift::Shift;
use floor::{Floor, Lanes};
use toll::Toll;
use tree::Record;
use tree::table::{is_marked, next_at, open, set_mark, take_out, toll_at};
use tree::way::enters;

/// What became of a toll.
pub fn shift<T: Toll>(old: T, new: T) -> Shift
    ensures { result ≡ shift_of T.Toll.tolls old new }
{
    if old.is_below(new) {
        Shift::Dearer
    } else if new.is_below(old) {
        Shift::Cheaper
    } else {
        Shift::Same
    }
}

/// Whether there is such a lane, and it leads from one place to the other.
fn leads<F: Floor>(floor: &F, lane: u16, from: u16, to: u16) -> bool
    ensures { result ≡ leads_from from to ((F.Floor.meaning floor.now).lane lane) }
{
    floor
        .lane_ends(lane)
        .is_some_and(|(left, entered)| left == from && entered == to)
}

/// Whether a lane of the spot leads from one place to the other.
fn joins<F: Floor>(floor: &F, spot: u16, from: u16, to: u16) -> bool
    ensures { result ≡ joined_by (F.Floor.meaning floor.now) spot from to }
{
    Lanes::of_spot(floor, spot).any(|lane| leads(floor, lane, from, to))
}

/// Whether a lane of the spot enters the place.
fn entered_by<F: Floor>(floor: &F, spot: u16, place: u16) -> bool
    ensures { result ≡ entered_by (F.Floor.meaning floor.now) spot place }
{
    Lanes::of_spot(floor, spot).any(|lane| enters(floor, lane, place))
}

/// Whether the recorded way from a place uses a lane of the spot.
fn uses_spot<T: Toll, F: Floor<Toll = T>>(
    table: &[Record<T>],
    floor: &F,
    target: u16,
    spot: u16,
    from: u16,
) -> bool
    ensures { result ≡ uses_spot (F.Floor.meaning floor.now) spot (tree_of table.now) target (length table.now) from }
{
    let mut place = from;
    for _ in 0..table.len() {
        if place == target {
            return false;
        }
        let Some(next) = next_at(table, place) else {
            return false;
        };
        if joins(floor, spot, place, next) {
            return true;
        }
        place = next;
    }
    false
}

/// Whether a place is in the tree, and its recorded way uses a lane of the spot.
fn drops<T: Toll, F: Floor<Toll = T>>(
    table: &[Record<T>],
    floor: &F,
    target: u16,
    spot: u16,
    place: u16,
) -> bool
    ensures { result ≡ dropped_by (F.Floor.meaning floor.now) spot target (tree_of table.now) place }
{
    toll_at(table, place).is_some() && uses_spot(table, floor, target, spot, place)
}

// The three loops over the table go by place number, as the definitions do; a turn may ask the whole table beside the record that it writes.

/// Marks the places that are dropped when the spot becomes dearer.
fn mark<T: Toll, F: Floor<Toll = T>>(table: &mut [Record<T>], floor: &F, target: u16, spot: u16)
    requires { length table.old < 65536 }
    ensures entries { tree_of table.new ≡ tree_of table.old }
    ensures marks { marks_of table.new ≡ marks (F.Floor.meaning floor.now) spot target (tree_of table.old) }
{
    let places = table.len() as u16;
    for place in 0..places {
        let is_dropped = drops(table, floor, target, spot, place);
        set_mark(table, place, is_dropped);
    }
}

/// Whether there is such a lane, and it leaves a marked place.
fn leaves_marked<T: Toll, F: Floor<Toll = T>>(table: &[Record<T>], floor: &F, lane: u16) -> bool
    ensures { result ≡ leaves_marked (marks_of table.now) ((F.Floor.meaning floor.now).lane lane) }
{
    floor
        .lane_ends(lane)
        .is_some_and(|(left, _)| is_marked(table, left))
}

/// Whether a lane from a marked place enters the place.
fn beside_marked<T: Toll, F: Floor<Toll = T>>(table: &[Record<T>], floor: &F, place: u16) -> bool
    ensures { result ≡ beside_marked (F.Floor.meaning floor.now) (marks_of table.now) place }
{
    Lanes::into(floor, place).any(|lane| leaves_marked(table, floor, lane))
}

/// Drops a marked place, and opens a place of the tree beside a marked one.
fn cut_at<T: Toll, F: Floor<Toll = T>>(table: &mut [Record<T>], floor: &F, place: u16)
    ensures entries { tree_of table.new ≡ alter (cut_at (F.Floor.meaning floor.now) (marks_of table.old) place) (tree_of table.old) place }
    ensures marks { marks_of table.new ≡ marks_of table.old }
{
    if is_marked(table, place) {
        take_out(table, place);
    } else if beside_marked(table, floor, place) {
        open(table, place);
    }
}

/// Drops the marked places, and opens the places of the tree beside them.
fn cut<T: Toll, F: Floor<Toll = T>>(table: &mut [Record<T>], floor: &F)
    requires { length table.old < 65536 }
    ensures entries { tree_of table.new ≡ by_place (cut_at (F.Floor.meaning floor.now) (marks_of table.old)) (tree_of table.old) }
    ensures marks { marks_of table.new ≡ marks_of table.old }
{
    let places = table.len() as u16;
    for place in 0..places {
        cut_at(table, floor, place);
    }
}

/// Opens a place of the tree that a lane of the spot enters.
fn reopen_at<T: Toll, F: Floor<Toll = T>>(table: &mut [Record<T>], floor: &F, spot: u16, place: u16)
    ensures { tree_of table.new ≡ alter (opened_if (entered_by (F.Floor.meaning floor.now) spot place)) (tree_of table.old) place }
{
    if entered_by(floor, spot, place) {
        open(table, place);
    }
}

/// Opens the places of the tree that a lane of the spot enters.
fn reopen<T: Toll, F: Floor<Toll = T>>(table: &mut [Record<T>], floor: &F, spot: u16)
    requires { length table.old < 65536 }
    ensures { tree_of table.new ≡ by_place (λ p e. opened_if (entered_by (F.Floor.meaning floor.now) spot p) e) (tree_of table.old) }
{
    let places = table.len() as u16;
    for place in 0..places {
        reopen_at(table, floor, spot, place);
    }
}

/// Repairs the tree after the spot's toll has changed.
pub fn repair<T: Toll, F: Floor<Toll = T>>(
    table: &mut [Record<T>],
    floor: &F,
    target: u16,
    spot: u16,
    shift: Shift,
)
    requires { length table.old < 65536 }
    ensures { tree_of table.new ≡ repaired (F.Floor.meaning floor.now) spot target shift (tree_of table.old) }
{
    match shift {
        Shift::Dearer => {
            mark(table, floor, target, spot);
            cut(table, floor);
        }
        Shift::Cheaper => reopen(table, floor, spot),
        Shift::Same => {}
    }
}
