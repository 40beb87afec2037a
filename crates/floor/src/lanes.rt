ghost use Rattle.std.specs.Prelude.{◌≡◌};
ghost use Rattle.std.specs.Iterator.{YieldsFirst, item_count};
ghost use Rattle.std.specs.List.{slice_get};
ghost use Rattle.floor.specs.Meaning.{out_of, into, of_spot};
ghost use Rattle.floor.specs.LanesLeft.{asked, lanes_left};

use crate::floor::Floor;

/// Which lanes are gone through. An enum and no closure, since the iterator's ghost members tell from it which lanes are left.
#[derive(Clone, Copy, PartialEq, Eq, Debug)]
enum Which {
    OutOf(u16),
    Into(u16),
    OfSpot(u16),
}

/// Goes through the lanes out of a place, into a place or of a spot, by rising lane number.
#[derive(Drop)]
pub struct Lanes<'f, F> {
    floor: &'f F,
    which: Which,
    /// How many are behind it, counted by hand: a floor is asked for its k-th lane.
    k: u16,
}

impl<'f, F: Floor> Lanes<'f, F> {
    /// The lanes out of a place.
    pub fn out_of(floor: &'f F, place: u16) -> Self
        ensures { lanes_left F.Floor.meaning result ≡ out_of (F.Floor.meaning floor.now) place }
    {
        Lanes {
            floor,
            which: Which::OutOf(place),
            k: 0,
        }
    }

    /// The lanes into a place.
    pub fn into(floor: &'f F, place: u16) -> Self
        ensures { lanes_left F.Floor.meaning result ≡ into (F.Floor.meaning floor.now) place }
    {
        Lanes {
            floor,
            which: Which::Into(place),
            k: 0,
        }
    }

    /// The lanes of a spot.
    pub fn of_spot(floor: &'f F, spot: u16) -> Self
        ensures { lanes_left F.Floor.meaning result ≡ of_spot (F.Floor.meaning floor.now) spot }
    {
        Lanes {
            floor,
            which: Which::OfSpot(spot),
            k: 0,
        }
    }

    /// The lane behind those that were given, if there is one.
    // Inlined, with `next`, so that what does not hang on k is worked out once for all lanes of a place.
    #[inline(always)]
    fn ask(&self) -> Option<u16>
        ensures { result ≡ slice_get (asked (F.Floor.meaning self.now.floor.now) self.now.which) self.now.k }
    {
        match self.which {
            Which::OutOf(place) => self.floor.lane_out(place, self.k),
            Which::Into(place) => self.floor.lane_into(place, self.k),
            Which::OfSpot(spot) => self.floor.lane_of_spot(spot, self.k),
        }
    }
}

impl<'f, F: Floor> Iterator for Lanes<'f, F> {
    type Item = u16;

    ghost next_gives = { YieldsFirst (lanes_left F.Floor.meaning) };

    ghost remaining = { item_count (lanes_left F.Floor.meaning) };

    #[inline(always)]
    fn next(&mut self) -> Option<u16> {
        let lane = self.ask()?;
        self.floor.laws_hold();
        self.k += 1;
        Some(lane)
    }
}
