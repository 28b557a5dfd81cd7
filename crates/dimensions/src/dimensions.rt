// D1 and D2 from the sums over the courses, and their tests.
ghost use Rattle.std.specs.Prelude.{◌≡◌, [], ◌∷◌, ◌+◌, ◌*◌, ◌^◌, ◌≤◌, ◌<◌};
ghost use Rattle.laws.specs.Order.{pick};
ghost use Rattle.measure.specs.Pi.{pi_under};
ghost use Rattle.measure.specs.Quantity.{diameter, diameter_units};
ghost use Rattle.refusal.specs.Test.{verdict, refusal_of};
ghost use Rattle.dimensions.specs.Dimensions.{allowance, outer_diameter, wall, shell_diameter, head_diameter, diameter_fits};
ghost use Rattle.dimensions.specs.Tests.{lengths_test, diameter_test, diameter_tests, head_length_test};
ghost use Rattle.dimensions.specs.Judged.{judged_with};

use crate::sums::Sums;
use arith::nearest::nearest_quotient;
use heads::kind::HeadKind;
use heads::length::fits_diameter;
use measure::diameter::Diameter;
use measure::pi::{PI_OVER, PI_UNDER};
use refusal::limits::is_near;
use refusal::{Refusal, about_of, limited, one_test};
use sentences::{OF_HEAD_DIAMETER, OF_HEAD_LENGTH, OF_LENGTHS, OF_SHELL_DIAMETER};

// How far the course lengths together may lie from L1, for each course.
const COURSE_ALLOWANCE: u32 = 100;

// How far a diameter may lie from DH.
const FARTHEST: u64 = 10_000;

// DH, D1 and D2 of a file.
#[derive(Clone, Copy)]
pub struct Diameters {
    pub dh: Diameter,
    pub d1: Diameter,
    pub d2: Diameter,
}

// How far the lengths may lie from L1.
fn allowance(t: Sums) -> u32
    ensures { result ≡ allowance t }
{
    COURSE_ALLOWANCE * t.count
}

// Refusal 6: whether the lengths are as near to L1 as that.
pub(crate) fn lengths_tested(t: Sums, l1: u32) -> Result<(), Refusal>
    requires { (allowance t ≤ l1) × (l1 + allowance t < 2 ^ 32) }
    ensures { result ≡ verdict (lengths_test t l1 ∷ []) }
{
    let most = allowance(t);
    limited(
        6,
        0,
        OF_LENGTHS,
        0,
        u64::from(t.lengths),
        l1 - most..=l1 + most,
    )
}

// Of circumferences, in pairs, weighted by lengths.
#[tactic(auto, unfolding(crate::specs::Dimensions::outer_diameter), using(crate::specs::SumLaws::outer_fits))]
fn outer_diameter(readings: u64, lengths: u32) -> u32
    requires { (pi_under * readings < 2 ^ 63) × (readings < 2 ^ 33 * lengths) }
    ensures { result ≡ outer_diameter readings lengths }
{
    nearest_quotient(PI_UNDER * readings, 2 * PI_OVER * u64::from(lengths)) as u32
}

// Twice the mean thickness.
#[tactic(auto, unfolding(crate::specs::Dimensions::wall), using(crate::specs::SumLaws::wall_fits))]
fn wall(t: Sums) -> u32
    requires { 1 ≤ t.count }
    ensures { result ≡ wall t.thicknesses t.count }
{
    nearest_quotient(2 * u64::from(t.thicknesses), u64::from(t.count)) as u32
}

// D1, from the courses.
#[tactic(auto, unfolding(crate::specs::Dimensions::shell_diameter))]
pub(crate) fn shell_diameter(t: Sums) -> u32
    requires { 1 ≤ t.count }
    ensures { result ≡ shell_diameter t }
{
    outer_diameter(t.readings, t.lengths).saturating_sub(wall(t))
}

// D2, of flange and head, from the circumferences at the shell's ends.
#[tactic(auto, unfolding(crate::specs::Dimensions::head_diameter))]
pub(crate) fn head_diameter(t: Sums, left: u32, right: u32) -> u32
    requires { 1 ≤ t.count }
    ensures { result ≡ head_diameter t left right }
{
    outer_diameter(u64::from(left) + u64::from(right), 1).saturating_sub(wall(t))
}

// The diameter of so many u, where it is within its limits and not far from DH.
#[tactic(auto, unfolding(crate::specs::Dimensions::diameter_fits))]
fn fitting(d: u32, dh: u32) -> Option<Diameter>
    ensures { result ≡ pick (diameter_fits d dh) (Some (diameter d)) None }
{
    if !is_near(d as u64, dh as u64, FARTHEST) {
        return None;
    }
    Diameter::of(d as u64)
}

// Refusal 7 of a diameter, which is compared with DH.
fn unfit(sentence: u32, dh: u32, d: u32) -> Refusal
    ensures { result ≡ refusal_of (diameter_test sentence dh d) }
{
    Refusal {
        number: 7,
        place: 0,
        about: about_of(
            sentence,
            dh,
            u64::from(d),
            Diameter::SMALLEST..=Diameter::LARGEST,
        ),
    }
}

// DH, D1 and D2.
pub(crate) fn diameters_of(d1: u32, d2: u32, dip_point: Diameter) -> Result<Diameters, Refusal>
    ensures { result ≡ judged_with (verdict (diameter_tests (diameter_units dip_point) d1 d2)) (diameter_units dip_point) d1 d2 }
{
    let dh = dip_point.units();
    let shell = fitting(d1, dh).ok_or(unfit(OF_SHELL_DIAMETER, dh, d1))?;
    let heads = fitting(d2, dh).ok_or(unfit(OF_HEAD_DIAMETER, dh, d2))?;
    Ok(Diameters {
        dh: dip_point,
        d1: shell,
        d2: heads,
    })
}

// Refusal 14: whether D2 allows the length of one head.
pub(crate) fn heads_tested(d2: Diameter, kind: HeadKind, l3: u32) -> Result<(), Refusal>
    ensures { result ≡ verdict (head_length_test kind (diameter_units d2) l3 ∷ []) }
{
    let d = d2.units();
    let about = about_of(OF_HEAD_LENGTH, d, u64::from(l3), 0..=d / 2);
    one_test(14, 0, fits_diameter(kind, d2, l3), about)
}
