use crate::random::Random;
use toll::{Gates, Seconds, Toll};

/// A kind of toll that can be drawn and compared.
pub trait Draw: Toll + Ord {
    /// A toll of the kinds that matter, for a spot with that least toll: small ones with many ties, the least, zero, near the
    /// stops, and shut. Any may come.
    fn drawn(random: &mut Random, least: Self) -> Self;
}

impl Draw for Seconds {
    fn drawn(random: &mut Random, least: Seconds) -> Seconds {
        let least = least.value();
        Seconds::new(match random.below(random.odds.seconds) {
            0 => least,
            1 => u32::MAX,
            2 => u32::MAX - 1,
            3 => 1 << 31,
            4 if random.odds.goes_below => least.saturating_sub(1),
            _ => least.saturating_add(random.below(5)),
        })
    }
}

impl Draw for Gates {
    fn drawn(random: &mut Random, _least: Gates) -> Gates {
        match random.below(random.odds.gates) {
            0 => Gates::new(0, 0),
            1 => Gates::new(u16::MAX, 0),
            2 => Gates::new(0, u32::MAX),
            3 => Gates::new(u16::MAX - 1, 7),
            4 => Gates::new(1, 0),
            _ => Gates::new(random.short(2), random.below(4)),
        }
    }
}
