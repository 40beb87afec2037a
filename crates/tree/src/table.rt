ghost use Rattle.std.specs.Prelude.{◌≡◌, true, set, Some};
ghost use Rattle.std.specs.List.{slice_get};
ghost use Rattle.std.specs.Option.{option_map};
ghost use Rattle.tree.specs.Tree.{entry_of, tree_of, toll_at, next_at, open_toll, blank_entry, close_at, alter, marks_of, marked, opened_if};

use crate::record::Record;
use toll::Toll;

/// The record of a place, if there is one.
pub fn record_at<T: Toll>(table: &[Record<T>], place: u16) -> Option<Record<T>>
    ensures { option_map entry_of result ≡ slice_get (tree_of table.now) place }
{
    table.get(place as usize).copied()
}

/// The recorded toll of a place in the tree.
pub fn toll_at<T: Toll>(table: &[Record<T>], place: u16) -> Option<T>
    ensures { result ≡ toll_at (tree_of table.now) place }
{
    record_at(table, place)?.toll
}

/// The next place of a place.
pub fn next_at<T: Toll>(table: &[Record<T>], place: u16) -> Option<u16>
    ensures { result ≡ next_at (tree_of table.now) place }
{
    record_at(table, place)?.next
}

/// The recorded toll of an open place.
pub fn open_toll<T: Toll>(table: &[Record<T>], place: u16) -> Option<T>
    ensures { result ≡ open_toll (tree_of table.now) place }
{
    let record = record_at(table, place)?;
    if record.is_open { record.toll } else { None }
}

// Writes go by index: after a slice's `get_mut` a proof knows the slice's length alone.

/// Writes the record of a place, if there is one.
pub(crate) fn write<T: Toll>(table: &mut [Record<T>], place: u16, written: Record<T>)
    ensures { tree_of table.new ≡ set (tree_of table.old) place (entry_of written) }
{
    let at = place as usize;
    if at < table.len() {
        table[at] = written;
    }
}

/// Records a toll and a next place, and opens the place.
pub fn enter<T: Toll>(table: &mut [Record<T>], place: u16, toll: T, next: u16)
    ensures { tree_of table.new ≡ set (tree_of table.old) place (record { toll = Some toll; next = Some next; is_open = true }) }
{
    write(
        table,
        place,
        Record {
            toll: Some(toll),
            next: Some(next),
            is_open: true,
            is_cut: false,
        },
    );
}

/// Takes a place off the open list.
pub fn close<T: Toll>(table: &mut [Record<T>], place: u16)
    ensures { tree_of table.new ≡ close_at (tree_of table.old) place (slice_get (tree_of table.old) place) }
{
    let at = place as usize;
    if at < table.len() {
        table[at].is_open = false;
    }
}

/// Opens a place, if it is in the tree.
pub fn open<T: Toll>(table: &mut [Record<T>], place: u16)
    ensures entries { tree_of table.new ≡ alter (opened_if true) (tree_of table.old) place }
    ensures marks { marks_of table.new ≡ marks_of table.old }
{
    let at = place as usize;
    if at < table.len() && table[at].toll.is_some() {
        table[at].is_open = true;
    }
}

/// Takes a place out of the tree; its mark stays.
pub fn take_out<T: Toll>(table: &mut [Record<T>], place: u16)
    ensures entries { tree_of table.new ≡ alter (λ _. blank_entry) (tree_of table.old) place }
    ensures marks { marks_of table.new ≡ marks_of table.old }
{
    let at = place as usize;
    if at < table.len() {
        table[at] = Record {
            is_cut: table[at].is_cut,
            ..Record::blank()
        };
    }
}

/// Writes the mark of a place.
pub fn set_mark<T: Toll>(table: &mut [Record<T>], place: u16, mark: bool)
    ensures entries { tree_of table.new ≡ tree_of table.old }
    ensures marks { marks_of table.new ≡ alter (λ _. mark) (marks_of table.old) place }
{
    let at = place as usize;
    if at < table.len() {
        table[at].is_cut = mark;
    }
}

/// Whether a place is marked.
pub fn is_marked<T: Toll>(table: &[Record<T>], place: u16) -> bool
    ensures { result ≡ marked (marks_of table.now) place }
{
    table
        .get(place as usize)
        .is_some_and(|record| record.is_cut)
}
