// The sums over the courses that the dimensions are made of.
ghost use Rattle.std.specs.Prelude.{◌≡◌, ◌+◌, ◌≤◌, length};
ghost use Rattle.file.specs.Layout.{course_end};
ghost use Rattle.readings.specs.CourseLaws.{CourseFits};
ghost use Rattle.readings.specs.FitLaws.{NumbersFit};
ghost use Rattle.dimensions.specs.Dimensions.{sum_of, sums_of};

use file::format::Format;
use file::layout;
use file::section::{courses, record_at};
use file::word::word;
use readings::rise::{corrected_at, rise_of};
use std::marker::Model;
use std::ops::Add;

// What the dimensions are made of, summed over courses: no more than a file can have, each within its limits.
#[derive(Clone, Copy)]
pub struct Sums {
    // (first + second circumference) · length
    pub readings: u64,
    pub lengths: u32,
    pub thicknesses: u32,
    pub count: u32,
}

impl Model for Sums {
    ghost use Rattle.dimensions.specs.CourseSums.{CourseSums};

    ghost Value = { CourseSums };

    ghost use Rattle.dimensions.specs.Dimensions.{sums};
    ghost use Rattle.dimensions.specs.SumLaws.{SumsFit};

    ghost view = { sums };

    ghost invariant = { λ t. SumsFit (sums t) };

    ghost inverse = { λ t. record { readings = t.readings; lengths = t.lengths; thicknesses = t.thicknesses; count = t.count } };
}

impl Add for Sums {
    type Output = Sums;

    ghost use Rattle.std.specs.Prelude.{◌≡◌, ◌+◌, ◌≤◌};
    ghost use Rattle.file.specs.Limits.{most_courses};
    ghost use Rattle.dimensions.specs.Dimensions.{added};

    ghost can_add = { λ t u. t.count + u.count ≤ most_courses };

    ghost add_gives = { λ t u r. r ≡ added t u };

    fn add(self, u: Sums) -> Sums {
        Sums {
            readings: self.readings + u.readings,
            lengths: self.lengths + u.lengths,
            thicknesses: self.thicknesses + u.thicknesses,
            count: self.count + u.count,
        }
    }
}

// What the course at a byte adds, its circumferences having lost the tape rise.
#[tactic(auto, unfolding(crate::specs::Dimensions::sum_of))]
fn sum_of(s: &[u8], at: usize, rise: u64) -> Sums
    requires { (at + course_end ≤ length s.now) × CourseFits s.now at rise }
    ensures { result ≡ sum_of s.now at rise }
{
    let first = corrected_at(s, at + layout::FIRST_CIRCUMFERENCE, rise);
    let second = corrected_at(s, at + layout::SECOND_CIRCUMFERENCE, rise);
    let length = word(s, at + layout::COURSE_LENGTH);
    Sums {
        readings: (first + second) * u64::from(length),
        lengths: length,
        thicknesses: word(s, at + layout::THICKNESS),
        count: 1,
    }
}

// Over all courses of a file that passes refusals 1 to 5.
// `NumbersFit` is of a format and of bytes: a clause, as `file::section::courses` says.
// That there is a course is no invariant of the sums: they start from none, and from the first it would have to be summed in two places.
pub(crate) fn file_sums(f: Format, s: &[u8]) -> Sums
    requires { NumbersFit f s.now }
    ensures value { result ≡ sums_of f s.now }
    ensures some_course { 1 ≤ result.count }
{
    let x = courses(f, s);
    let mut t = Sums {
        readings: 0,
        lengths: 0,
        thicknesses: 0,
        count: 0,
    };
    for i in 0..x.count {
        t = t + sum_of(s, record_at(x, i), rise_of(f, s, i));
    }
    t
}
