// The volume of both heads, to the nearest v, by their kind.
ghost use Rattle.std.specs.Prelude.{◌≡◌, ◌≤◌};
ghost use Rattle.measure.specs.Quantity.{diameter_units, volume};
ghost use Rattle.correction.specs.ShellHeight.{shell_units};
ghost use Rattle.heads.specs.Volume.{heads_volume};
ghost use Rattle.heads.specs.Walk.{heads_walk_at};

use crate::heads::Heads;
use crate::kind::HeadKind;
use arith::nearest::nearest_quotient;
use arith::product::nearest_of_product;
use correction::shell_height::ShellHeight;
use dome_walk::walk::DomeWalk;
use measure::pi::{PI_OVER, PI_UNDER};
use measure::volume::{CUBIC_PER_V, Volume};

impl Heads {
    // Half-ellipsoid heads, filled to h. The product passes 64 bits, and is divided without being formed: h · h is the factor that stays below the
    // divisor.
    fn half_ellipsoids(self, h: u64) -> Volume
        requires { h ≤ diameter_units self.d }
        ensures { result ≡ volume (heads_volume HeadKind.HalfEllipsoid (diameter_units self.d) self.l h) }
    {
        let d = self.d.units() as u64;
        let l = self.l as u64;
        let both = nearest_of_product(
            PI_OVER * l * (3 * d - 2 * h),
            h * h,
            PI_UNDER * (3 * d) * CUBIC_PER_V,
        );
        Volume::from(both as u32)
    }

    // Spherical caps, whose dome is walked up to h: halfway between the two totals of both domes is as much as the two totals of one dome together.
    fn spherical_caps(self, at: DomeWalk, h: u64) -> Volume
        requires { (self.kind ≡ HeadKind.SphericalCap) × (h ≤ diameter_units self.d) × (at ≡ heads_walk_at HeadKind.SphericalCap (diameter_units self.d) self.l h) }
        ensures { result ≡ volume (heads_volume HeadKind.SphericalCap (diameter_units self.d) self.l h) }
    {
        let totals = at.filled(self.dome(), h);
        Volume::from(nearest_quotient(totals.fitting + totals.covering, CUBIC_PER_V) as u32)
    }

    // Both heads, filled to h, where the walk has come to.
    #[tactic(auto, unfolding(crate::specs::Volume::heads_volume))]
    pub fn volume(self, at: DomeWalk, h: ShellHeight) -> Volume
        requires inside { shell_units h ≤ diameter_units self.d }
        requires walked { at ≡ heads_walk_at self.kind (diameter_units self.d) self.l (shell_units h) }
        ensures { result ≡ volume (heads_volume self.kind (diameter_units self.d) self.l (shell_units h)) }
    {
        match self.kind {
            HeadKind::Flat => Volume::from(0),
            HeadKind::HalfEllipsoid => self.half_ellipsoids(h.shell_units()),
            HeadKind::SphericalCap => self.spherical_caps(at, h.shell_units()),
        }
    }
}
