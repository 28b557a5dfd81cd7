// The tape rise: the tape bridges each seam, so that a circumference comes out long by so much.
ghost use Rattle.std.specs.Prelude.{◌≡◌, ◌≤◌};
ghost use Rattle.measure.specs.Diameter.{smallest};
ghost use Rattle.seams.specs.SeamLaws.{SeamFits};
ghost use Rattle.seams.specs.Rise.{first_term, second_term, tape_rise};

use crate::seam::Seam;
use arith::nearest::nearest_quotient;

// Seams within their limits, and a tank of this DH.
#[derive(Clone, Copy)]
struct Weld {
    seam: Seam,
    dh: u32,
    ghost fits: { SeamFits seam },
    ghost wide: { smallest ≤ dh },
}

impl Weld {
    // 2Ntw/d, to the nearest u.
    #[tactic(auto, using(crate::specs::SeamLaws::first_product_fits), unfolding(crate::specs::Rise::first_term))]
    fn first_term(self) -> u64
        ensures { result ≡ first_term self.seam self.dh }
    {
        let seam = self.seam;
        nearest_quotient(
            2 * u64::from(seam.number) * u64::from(seam.thickness) * u64::from(seam.width),
            u64::from(self.dh),
        )
    }

    // (8Nt/3)·root(t/d) is the root of 64N²t³/(9d). The quotient may be cut to whole numbers before the root is: squares are whole too.
    #[tactic(auto, using(crate::specs::SeamLaws::second_product_fits, laws::proofs::RootLaws::root_unique), unfolding(crate::specs::Rise::second_term, laws::specs::Root::root_of))]
    fn second_term(self) -> u64
        ensures { result ≡ second_term self.seam self.dh }
    {
        let n = u64::from(self.seam.number);
        let t = u64::from(self.seam.thickness);
        (64 * n * n * (t * t * t) / (9 * u64::from(self.dh))).isqrt()
    }
}

// Of any DH from the smallest on: a `Diameter` would ask for less than the largest, too.
#[tactic(auto, using(crate::proofs::RiseLaws::first_term_at_most, crate::proofs::RiseLaws::second_term_at_most), unfolding(crate::specs::Rise::tape_rise))]
pub fn tape_rise(seam: Seam, dh: u32) -> u64
    requires { SeamFits seam × (smallest ≤ dh) }
    ensures { result ≡ tape_rise seam dh }
{
    let weld = Weld { seam, dh };
    weld.first_term() + weld.second_term()
}
