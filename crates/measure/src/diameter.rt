// An inner diameter, in u: one kind of measure with its own limits, 500.00 mm to 5,000.00 mm.
ghost use Rattle.std.specs.Prelude.{◌≡◌};
ghost use Rattle.measure.specs.Diameter.{DiameterLimits, measured, smallest, largest};
ghost use Rattle.measure.specs.Quantity.{diameter, diameter_units};

use std::marker::Model;

// Every diameter is within the limits. The definitions speak of any size.
#[derive(Clone, Copy)]
pub struct Diameter(u32);

impl Model for Diameter {
    ghost use Rattle.measure.specs.Size.{Size};

    ghost Value = { Size };

    ghost use Rattle.measure.specs.Diameter.{DiameterLimits};

    ghost view = { λ d. record { units = d.0 } };

    ghost invariant = { λ d. DiameterLimits d.0 };

    ghost inverse = { λ d. record { 0 = d.units } };
}

impl Diameter {
    pub const SMALLEST: u32 = 50_000;

    pub const LARGEST: u32 = 500_000;

    // The diameter of so many u, none outside the limits. The limits are those of the definition.
    // An `Option` and no `TryFrom`: an error would have nothing to say but the number, which the caller has.
    pub fn of(units: u64) -> Option<Diameter>
        ensures value { result ≡ measured units }
        ensures smallest_value { Diameter.SMALLEST ≡ smallest }
        ensures largest_value { Diameter.LARGEST ≡ largest }
    {
        let limits = u64::from(Diameter::SMALLEST)..=u64::from(Diameter::LARGEST);
        if limits.contains(&units) {
            Some(Diameter(units as u32))
        } else {
            None
        }
    }

    // The smallest diameter: one that is there whatever was measured.
    pub fn smallest() -> Diameter
        ensures { result ≡ diameter smallest }
    {
        Diameter(Diameter::SMALLEST)
    }

    // That it is within the limits is told too, for whoever goes on with the number.
    pub fn units(self) -> u32
        ensures value { result ≡ diameter_units self }
        ensures limits { DiameterLimits (diameter_units self) }
    {
        self.0
    }
}
