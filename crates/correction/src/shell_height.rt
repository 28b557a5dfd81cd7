// A shell height: the corrected height of the liquid in a part of the tank, in u. The correction below is the only way to make
// one, and the only step from a dip height to it; there is none back.
ghost use Rattle.std.specs.Prelude.{◌≡◌};
ghost use Rattle.laws.specs.Half.{half_difference};
ghost use Rattle.measure.specs.Quantity.{dip_units, diameter_units};
ghost use Rattle.correction.specs.ShellHeight.{shell_height, shell_units};
ghost use Rattle.correction.specs.Correction.{corrected_height};

use measure::diameter::Diameter;
use measure::dip_height::DipHeight;

// That it is not above its part's diameter is a clause where that matters: with the diameter in it, all that is made of a height would be handed the
// diameter twice.
#[derive(Clone, Copy)]
pub struct ShellHeight(u32);

// Half of a - b, rounded down, toward the lower number, also below zero.
pub fn half_difference(a: u32, b: u32) -> i64
    ensures { result ≡ half_difference a b }
{
    (i64::from(a) - i64::from(b)).div_euclid(2)
}

// H + (D - DH)/2, held within 0 to D.
#[tactic(auto, unfolding(crate::specs::Correction::corrected_height))]
fn corrected_units(d: u32, dh: u32, h: u32) -> u32
    ensures { result ≡ corrected_height d dh h }
{
    let raised = i64::from(h) + half_difference(d, dh);
    raised.clamp(0, i64::from(d)) as u32
}

impl ShellHeight {
    // H + (D - DH)/2 for a part of diameter D, the half rounded down, held within 0 to D.
    pub fn corrected(part: Diameter, dip_point: Diameter, height: DipHeight) -> ShellHeight
        ensures { result ≡ shell_height (corrected_height (diameter_units part) (diameter_units dip_point) (dip_units height)) }
    {
        ShellHeight(corrected_units(part.units(), dip_point.units(), height.units()))
    }

    // The number of u, asked for only by what works out an area or a volume from it (tests/heights.sh). Wider than a dip height's
    // number, so that no dip height is made of it unawares.
    pub fn shell_units(self) -> u64
        ensures { result ≡ shell_units self }
    {
        self.0 as u64
    }
}
