// What the volume of a tank is made of; lengths in u.
ghost use Rattle.std.specs.Prelude.{◌≡◌};

use heads::heads::Heads;
use heads::kind::HeadKind;
use measure::diameter::Diameter;
use std::marker::Model;

// The diameter at the dip point, the shell (d1, l1), and the heads of one kind (d2, l3) with a flange of length l2 each. Every tank is within the
// limits.
#[derive(Clone, Copy)]
pub struct Tank {
    pub kind: HeadKind,
    pub dh: Diameter,
    pub d1: Diameter,
    pub d2: Diameter,
    pub l1: u32,
    pub l2: u32,
    pub l3: u32,
}

impl Model for Tank {
    ghost use Rattle.tank.specs.Sizes.{Sizes};

    ghost Value = { Sizes };

    ghost use Rattle.tank.specs.Tank.{sizes};
    ghost use Rattle.tank.specs.TankLaws.{TankLimits};

    ghost view = { sizes };

    ghost invariant = { λ t. TankLimits (sizes t) };

    ghost inverse = { λ t. record { kind = t.kind; dh = t.dh; d1 = t.d1; d2 = t.d2; l1 = t.l1; l2 = t.l2; l3 = t.l3 } };
}

impl Tank {
    // The heads at both ends.
    pub(crate) fn heads(self) -> Heads
        ensures { (result.kind ≡ self.kind) × (result.d ≡ self.d2) × (result.l ≡ self.l3) }
    {
        Heads {
            kind: self.kind,
            d: self.d2,
            l: self.l3,
        }
    }
}
