ghost use Rattle.std.specs.Prelude.{◌≡◌};
ghost use Rattle.toll.specs.GatesKind.{gates_of, gates_kind};
ghost use Rattle.toll.specs.GatesLaws.{gates_lawful};

use super::Gates;
use crate::toll::Toll;

impl Gates {
    /// That many gates and seconds; at gate count 65,535 the seconds become 0.
    pub fn new(gates: u16, seconds: u32) -> Self
        ensures { result ≡ gates_of gates seconds }
    {
        let seconds = if gates == u16::MAX { 0 } else { seconds };
        Gates { gates, seconds }
    }

    /// How many gates.
    pub fn gates(self) -> u16
        ensures { result ≡ self.gates }
    {
        self.gates
    }

    /// How many seconds besides.
    pub fn seconds(self) -> u32
        ensures { result ≡ self.seconds }
    {
        self.seconds
    }
}

impl Toll for Gates {
    ghost tolls = { gates_kind };

    ghost lawful = { gates_lawful };

    fn at_most(self, other: Gates) -> bool {
        self <= other
    }

    fn join(self, other: Gates) -> Gates {
        Gates::new(
            self.gates.saturating_add(other.gates),
            self.seconds.saturating_add(other.seconds),
        )
    }

    fn zero() -> Gates {
        Gates::new(0, 0)
    }

    fn shut() -> Gates {
        Gates::new(u16::MAX, 0)
    }
}
