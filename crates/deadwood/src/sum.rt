// The sum of the shares that a list of deadwood items takes at a dip height.
ghost use Rattle.std.specs.Prelude.{◌≡◌};
ghost use Rattle.measure.specs.Quantity.{dip_units};
ghost use Rattle.deadwood.specs.Share.{shares_of};
ghost use Rattle.deadwood.specs.ListLaws.{DeadwoodLimits};

use crate::item::Deadwood;
use measure::dip_height::DipHeight;

// The limits are a clause, since an item has them only once it was judged.
pub fn sum_of_shares(items: &[Deadwood], h: DipHeight) -> i64
    requires { DeadwoodLimits items.now }
    ensures { result ≡ shares_of items.now (dip_units h) }
{
    let mut sum: i64 = 0;
    for item in items {
        sum += item.share(h);
    }
    sum
}
