// The size of the share that a deadwood item takes at a dip height.
ghost use Rattle.std.specs.Prelude.{◌≡◌, ◌≤◌, ◌<◌};
ghost use Rattle.deadwood.specs.Item.{largest_volume};
ghost use Rattle.deadwood.specs.Share.{share_size};

use arith::nearest::nearest_quotient;

// Of an item of so much size.
#[tactic(auto, using(crate::specs::ShareLaws::share_nothing, crate::specs::ShareLaws::share_all, crate::specs::ShareLaws::share_part))]
pub fn share_size(low: u32, high: u32, size: u64, h: u32) -> u64
    requires { (low < high) × (size ≤ largest_volume) }
    ensures { result ≡ share_size low high size h }
{
    if h <= low {
        return 0;
    }
    if high <= h {
        return size;
    }
    nearest_quotient(size * u64::from(h - low), u64::from(high - low))
}
