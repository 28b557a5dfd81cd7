// The heads of a tank, of one kind, within the limits of that kind and of their diameter.
ghost use Rattle.std.specs.Prelude.{◌≡◌};
ghost use Rattle.measure.specs.Diameter.{DiameterLimits};
ghost use Rattle.measure.specs.Quantity.{diameter_units};
ghost use Rattle.heads.specs.LengthLaws.{HeadLimits};

use crate::kind::HeadKind;
use dome_walk::dome::Dome;
use measure::diameter::Diameter;

// The diameter at the flange, and the inner length of one head.
#[derive(Clone, Copy)]
pub struct Heads {
    pub kind: HeadKind,
    pub d: Diameter,
    pub l: u32,
    pub ghost limits: { HeadLimits kind (diameter_units d) l },
}

impl Heads {
    // The dome that each of two spherical caps is.
    pub(crate) fn dome(self) -> Dome
        requires { self.kind ≡ HeadKind.SphericalCap }
        ensures value { (result.d ≡ diameter_units self.d) × (result.l ≡ self.l) }
        ensures limits { DiameterLimits (diameter_units self.d) }
    {
        Dome {
            d: self.d.units() as u64,
            l: self.l as u64,
        }
    }
}
