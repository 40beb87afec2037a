ghost use Rattle.std.specs.Prelude.{◌≡◌, ℕ};
ghost use Rattle.toll.specs.Refusals.{number_of};

use super::Refusal;

impl Refusal {
    /// The number that stands for this refusal, and for no other.
    pub fn number(self) -> u8
        ensures value { result ≡ number_of self }
        ensures own { (other : Refusal) → number_of other ≡ result → other ≡ self }
    {
        // A method and no `From`, since its contract says too that no other refusal has the number.
        self as u8
    }
}
