ghost use Rattle.std.specs.Prelude.{◌≡◌, ℕ, length};
ghost use Rattle.std.specs.Option.{option_map};
ghost use Rattle.std.specs.List.{slice_get};
ghost use Rattle.floor.specs.Meaning.{Meaning, lane_toll, lane_ends, out_of, into, of_spot};
ghost use Rattle.floor.specs.FloorLaws.{FloorLaws};
ghost use Rattle.floor.specs.Setting.{set_answer, set_meaning, OnlyToll};

use toll::{Refusal, Toll};

/// A floor: questions that alter nothing, and the setting of a spot's toll.
pub trait Floor {
    type Toll: Toll;

    ghost meaning: { Self → Meaning Self.Toll };

    /// Does nothing; its contract says that the floor is lawful.
    fn laws_hold(&self)
        ensures { FloorLaws Self.Toll.Toll.tolls (meaning self.now) };

    /// The number of places.
    fn places(&self) -> u16
        ensures { result ≡ (meaning self.now).places };

    /// The number of spots.
    fn spots(&self) -> u16
        ensures { result ≡ length (meaning self.now).spots };

    /// The place that a lane leaves and the place that it enters.
    fn lane_ends(&self, lane: u16) -> Option<(u16, u16)>
        ensures { result ≡ lane_ends (meaning self.now) lane };

    /// The toll of a lane.
    fn lane_toll(&self, lane: u16) -> Option<Self::Toll>
        ensures { result ≡ lane_toll (meaning self.now) lane };

    /// The toll of a spot.
    fn spot_toll(&self, spot: u16) -> Option<Self::Toll>
        ensures { result ≡ option_map (λ s. s.toll) (slice_get (meaning self.now).spots spot) };

    /// The least toll of a spot.
    fn least_toll(&self, spot: u16) -> Option<Self::Toll>
        ensures { result ≡ option_map (λ s. s.least) (slice_get (meaning self.now).spots spot) };

    /// The k-th lane out of a place, by rising lane number.
    fn lane_out(&self, place: u16, k: u16) -> Option<u16>
        ensures { result ≡ slice_get (out_of (meaning self.now) place) k };

    /// The k-th lane into a place, by rising lane number.
    fn lane_into(&self, place: u16, k: u16) -> Option<u16>
        ensures { result ≡ slice_get (into (meaning self.now) place) k };

    /// The k-th lane of a spot, by rising lane number.
    fn lane_of_spot(&self, spot: u16, k: u16) -> Option<u16>
        ensures { result ≡ slice_get (of_spot (meaning self.now) spot) k };

    /// At the least this toll is paid from one place to another.
    fn estimate(&self, from: u16, to: u16) -> Option<Self::Toll>
        ensures { result ≡ (meaning self.now).estimate from to };

    /// Sets the toll of a spot.
    fn set_toll(&mut self, spot: u16, toll: Self::Toll) -> Result<(), Refusal>
        ensures answer { result ≡ set_answer Self.Toll.Toll.tolls (meaning self.old) spot toll }
        ensures floor { meaning self.new ≡ set_meaning Self.Toll.Toll.tolls (meaning self.old) spot toll }
        ensures only { OnlyToll (meaning self.old) spot toll result (meaning self.new) };
}
