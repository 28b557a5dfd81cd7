// The butt welds that the tape crosses on its way round a course, and their limits.
ghost use Rattle.std.specs.Prelude.{◌≡◌};
ghost use Rattle.seams.specs.Seam.{most_seams, thickest_seam, widest_seam, no_seam};

// Of one course.
pub const MOST_SEAMS: u32 = 12;

// In u.
pub const THICKEST_SEAM: u32 = 1_000;

pub const WIDEST_SEAM: u32 = 5_000;

// N, t and w: how many welds the tape crosses, and how thick and how wide each of them is, in u. The limits are no invariant of
// the type: `records::item::seam_from` makes a seam of any three words.
#[derive(Clone, Copy)]
pub struct Seam {
    pub number: u32,
    pub thickness: u32,
    pub width: u32,
}

impl Seam {
    // No seams. The limits are those of the definition.
    pub fn none() -> Seam
        ensures value { result ≡ no_seam }
        ensures most_seams_value { MOST_SEAMS ≡ most_seams }
        ensures thickest_seam_value { THICKEST_SEAM ≡ thickest_seam }
        ensures widest_seam_value { WIDEST_SEAM ≡ widest_seam }
    {
        Seam {
            number: 0,
            thickness: 0,
            width: 0,
        }
    }
}
