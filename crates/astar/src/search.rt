ghost use Rattle.std.specs.Prelude.{◌≡◌, ◌<◌, length};
ghost use Rattle.std.specs.Option.{option_map};
ghost use Rattle.tree.specs.Tree.{tree_of};
ghost use Rattle.astar.specs.Search.{key as key_of, better as better_of, choice, settles as settled_by, seek};

use crate::expand::expand;
use crate::key::Key;
use crate::outcome::Outcome;
use floor::Floor;
use toll::Toll;
use tree::Record;
use tree::table::{open_toll, toll_at};

/// The key of a place, if it is there, from the toll that it may have.
fn key_of<T: Toll, F: Floor<Toll = T>>(
    floor: &F,
    from: u16,
    place: u16,
    toll: Option<T>,
) -> Option<Key<T>>
    ensures { result ≡ option_map (key_of T.Toll.tolls (F.Floor.meaning floor.now) from place) toll }
{
    toll.map(|toll| Key::of(floor, from, place, toll))
}

/// The better of the best so far and one more place; the best so far stays where the tolls are the same.
fn better<T: Toll>(
    best: Option<(u16, Key<T>)>,
    place: u16,
    key: Option<Key<T>>,
) -> Option<(u16, Key<T>)>
    ensures { result ≡ better_of T.Toll.tolls best place key }
{
    let Some(key) = key else {
        return best;
    };
    match best {
        Some((first, held)) if held.at_most(key) => Some((first, held)),
        _ => Some((place, key)),
    }
}

/// The open place with the smallest key seen from the carrier's place; ties go to the smaller number.
fn choose<T: Toll, F: Floor<Toll = T>>(
    table: &[Record<T>],
    floor: &F,
    from: u16,
) -> Option<(u16, Key<T>)>
    requires { length table.now < 65536 }
    ensures { result ≡ choice T.Toll.tolls (F.Floor.meaning floor.now) from (tree_of table.now) }
{
    let places = table.len() as u16;
    let mut best = None;
    // By place number, since a place is what is chosen.
    for place in 0..places {
        best = better(
            best,
            place,
            key_of(floor, from, place, open_toll(table, place)),
        );
    }
    best
}

/// Whether the key of the carrier's place, if it has one, is at most that of the chosen place.
fn settles<T: Toll>(key: Option<Key<T>>, chosen: Option<(u16, Key<T>)>) -> bool
    ensures { result ≡ settled_by T.Toll.tolls key chosen }
{
    match (key, chosen) {
        (Some(key), Some((_, best))) => key.at_most(best),
        (Some(_), None) => true,
        (None, _) => false,
    }
}

/// Expands places until the way from the carrier's place is found or no place is open; answers how it ended, and how many places it expanded.
pub fn search<T: Toll, F: Floor<Toll = T>>(
    table: &mut [Record<T>],
    floor: &F,
    from: u16,
) -> (Outcome, u32)
    requires { length table.old ≡ (F.Floor.meaning floor.now).places }
    ensures outcome { result.0 ≡ (seek T.Toll.tolls (F.Floor.meaning floor.now) from (length table.old) (tree_of table.old)).outcome }
    ensures count { result.1 ≡ length (seek T.Toll.tolls (F.Floor.meaning floor.now) from (length table.old) (tree_of table.old)).expanded }
    ensures table { tree_of table.new ≡ (seek T.Toll.tolls (F.Floor.meaning floor.now) from (length table.old) (tree_of table.old)).tree }
{
    floor.laws_hold();
    // Counted by hand, and told beside the outcome: a search has no list to go through, and its count holds however it ends.
    let mut count = 0;
    let outcome = loop {
        let chosen = choose(table, floor, from);
        if settles(key_of(floor, from, from, toll_at(table, from)), chosen) {
            break Outcome::Solved;
        }
        let Some((place, _)) = chosen else {
            break Outcome::NoWay;
        };
        expand(table, floor, place);
        count += 1;
    };
    (outcome, count)
}
