// A deadwood item, its limits, and its share at a dip height.
ghost use Rattle.std.specs.Prelude.{◌≡◌, ◌≤◌, ◌<◌, nat_abs};
ghost use Rattle.measure.specs.Quantity.{dip_units};
ghost use Rattle.deadwood.specs.Item.{no_item, largest_volume, heights_fit, volume_fits};
ghost use Rattle.deadwood.specs.Share.{share};

use crate::share::share_size;
use arith::signed;
use measure::dip_height::DipHeight;

// Of one survey.
pub const MOST_ITEMS: usize = 64;

// In v, of either sign.
pub const LARGEST_VOLUME: i64 = 10_000_000;

// A fitting: nothing of it at or below its low height, all of it at or above its high height. Positive volume takes room away. The limits are no
// invariant of the type: an item is read before it is judged, and its refusal names the number that does not fit.
#[derive(Clone, Copy)]
pub struct Deadwood {
    pub low: DipHeight,
    pub high: DipHeight,
    pub volume: i64,
}

impl Deadwood {
    // An item that takes nothing.
    pub fn nothing() -> Deadwood
        ensures { result ≡ no_item }
    {
        Deadwood {
            low: DipHeight::from(0),
            high: DipHeight::from(1),
            volume: 0,
        }
    }

    // Low height below high height, and that not above DH.
    pub fn heights_fit(self, dh: u32) -> bool
        ensures { result ≡ heights_fit self dh }
    {
        self.low < self.high && self.high <= DipHeight::from(dh)
    }

    // Of either sign: deadwood takes room away or adds it.
    pub fn volume_fits(self) -> bool
        ensures { result ≡ volume_fits self }
    {
        self.volume.unsigned_abs() <= LARGEST_VOLUME as u64
    }

    // What it takes at dip height h: the size is rounded, then the sign of the volume put on.
    pub fn share(self, h: DipHeight) -> i64
        requires { (dip_units self.low < dip_units self.high) × (nat_abs self.volume ≤ largest_volume) }
        ensures { result ≡ share self (dip_units h) }
    {
        let size = share_size(
            self.low.units(),
            self.high.units(),
            self.volume.unsigned_abs(),
            h.units(),
        );
        signed::with_sign(self.volume, size as u32)
    }
}
