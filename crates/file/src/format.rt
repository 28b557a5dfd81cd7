// The formats of a survey file: how long its header and its records are. The words of document 01 stand at the same places in all of
// them, and those that a later request added behind them.
ghost use Rattle.std.specs.Prelude.{◌≡◌, ◌≤◌, ℕ};
ghost use Rattle.file.specs.Layout.{header_end, has_seams};
ghost use Rattle.file.specs.Limits.{largest_file};
ghost use Rattle.file.specs.Format.{format_of, format48, today};

use crate::layout;
use std::marker::Model;

// Every format can be read.
#[derive(Clone, Copy)]
pub struct Format {
    pub header: usize,
    pub course: usize,
    pub deadwood: usize,
    pub seam: usize,
}

impl Model for Format {
    ghost use Rattle.file.specs.Lengths.{Lengths};

    ghost Value = { Lengths };

    ghost use Rattle.file.specs.Format.{lengths};
    ghost use Rattle.file.specs.SectionLaws.{Readable};

    ghost view = { lengths };

    ghost invariant = { λ f. Readable (lengths f) };

    ghost inverse = { λ f. record { header = f.header; course = f.course; deadwood = f.deadwood; seam = f.seam } };
}

// Whether a header of so many bytes has the words of the seams, however long the records are and whether or not such a format can be read.
pub fn header_has_seams(header: usize) -> bool
    ensures { (course deadwood seam : ℕ) → result ≡ has_seams (record { header = header; course = course; deadwood = deadwood; seam = seam }) }
{
    layout::SEAM_HEADER_END <= header
}

impl Format {
    // A format of this header.
    fn of(header: usize) -> Format
        requires { (header_end ≤ header) × (header ≤ largest_file) }
        ensures { result ≡ format_of header }
    {
        Format {
            header,
            course: layout::COURSE_END,
            deadwood: layout::ITEM_END,
            seam: layout::SEAM_END,
        }
    }

    // The format of document 01, which has no seams.
    pub fn header_of_48() -> Format
        ensures { result ≡ format48 }
    {
        Format::of(layout::HEADER_END)
    }

    pub fn today() -> Format
        ensures { result ≡ today }
    {
        Format::of(layout::SEAM_HEADER_END)
    }

    // Whether its header has the words of the seams.
    pub fn has_seams(self) -> bool
        ensures { result ≡ has_seams self }
    {
        header_has_seams(self.header)
    }
}
