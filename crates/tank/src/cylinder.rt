// The volume of a length of cylinder, to the nearest v.
ghost use Rattle.std.specs.Prelude.{◌≡◌, ◌*◌, ◌^◌, ◌<◌};
ghost use Rattle.laws.specs.Nearest.{nearest};
ghost use Rattle.measure.specs.Quantity.{cubic_per_v, volume};

use arith::nearest::nearest_quotient;
use measure::volume::{CUBIC_PER_V, Volume};

// A cylinder of so much doubled area and so long.
pub fn cylinder_volume(area: u64, length: u64) -> Volume
    requires { area * length < 2 ^ 63 }
    ensures { result ≡ volume (nearest (area * length) (2 * cubic_per_v)) }
{
    Volume::from(nearest_quotient(area * length, 2 * CUBIC_PER_V) as u32)
}
