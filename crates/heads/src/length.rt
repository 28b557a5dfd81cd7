// The inner length of one head, by its kind.
ghost use Rattle.std.specs.Prelude.{◌≡◌};
ghost use Rattle.measure.specs.Quantity.{diameter_units};
ghost use Rattle.heads.specs.Length.{shortest_of, longest_of, fits_diameter};

use crate::kind::HeadKind;
use measure::diameter::Diameter;
use std::ops::RangeInclusive;

// The longest head of any kind, in u.
pub const LONGEST: u32 = 260_000;

// The limits of a kind.
pub fn lengths_of(kind: HeadKind) -> RangeInclusive<u32>
    ensures { (result.start ≡ shortest_of kind) × (result.end ≡ longest_of kind) }
{
    match kind {
        HeadKind::Flat => 0..=0,
        HeadKind::HalfEllipsoid | HeadKind::SphericalCap => 1..=LONGEST,
    }
}

// Whether a length is one that the diameter allows, once that is known.
pub fn fits_diameter(kind: HeadKind, d: Diameter, l: u32) -> bool
    ensures { result ≡ fits_diameter kind (diameter_units d) l }
{
    match kind {
        HeadKind::Flat | HeadKind::HalfEllipsoid => true,
        HeadKind::SphericalCap => 2 * (l as u64) <= d.units() as u64,
    }
}
