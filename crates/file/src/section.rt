// The sections of a file as data, and how they lie in it. Offsets and sizes are added in 64 bits, where no sum of theirs wraps.
ghost use Rattle.std.specs.Prelude.{◌≡◌, ◌+◌, ◌^◌, ◌≤◌, ◌<◌, length};
ghost use Rattle.file.specs.Section.{section_at, courses, deadwood, seams, seam_items, record_at, end_of, placed, apart};
ghost use Rattle.file.specs.SectionLaws.{longest_record};

use crate::format::Format;
use crate::layout;
use crate::word::word;
use std::marker::Model;

#[derive(Clone, Copy)]
pub enum Records {
    Courses,
    Deadwood,
    Seams,
}

// Every section is of words and short records, so that no sum over it wraps.
#[derive(Clone, Copy)]
pub struct Section {
    pub records: Records,
    pub count: usize,
    pub offset: usize,
    pub size: usize,
}

impl Model for Section {
    ghost use Rattle.file.specs.Place.{Place};

    ghost Value = { Place };

    ghost use Rattle.file.specs.Section.{place};
    ghost use Rattle.file.specs.SectionLaws.{Small};

    ghost view = { place };

    ghost invariant = { λ x. Small (place x) };

    ghost inverse = { λ x. record { records = x.records; count = x.count; offset = x.offset; size = x.size } };
}

impl Section {
    // The byte behind the last record.
    pub fn end(self) -> usize
        ensures { (result ≡ end_of self) × (result < 2 ^ 63) }
    {
        self.offset + self.size * self.count
    }
}

// A section of records of a size, whose count and byte offset stand at a byte of the header. The three sections share this much: one function over
// `Records` would have the bodies of `courses`, `deadwood` and `seams` as its arms.
fn section_at(records: Records, at: usize, size: usize, s: &[u8]) -> Section
    requires { (at + 8 ≤ length s.now) × (size ≤ longest_record) }
    ensures { result ≡ section_at records at size s.now }
{
    Section {
        records,
        count: word(s, at) as usize,
        offset: word(s, at + 4) as usize,
        size,
    }
}

// A format and a file's bytes go side by side, and what is known of both is a clause, here and in the rooms above: a struct of both would hold a
// borrow, and each clause would have to tell the struct's moment from that of the bytes.
pub fn courses(f: Format, s: &[u8]) -> Section
    requires { f.header ≤ length s.now }
    ensures { result ≡ courses f s.now }
{
    section_at(Records::Courses, layout::COURSES, f.course, s)
}

pub fn deadwood(f: Format, s: &[u8]) -> Section
    requires { f.header ≤ length s.now }
    ensures { result ≡ deadwood f s.now }
{
    section_at(Records::Deadwood, layout::DEADWOOD, f.deadwood, s)
}

// One that the format lacks is empty.
pub fn seams(f: Format, s: &[u8]) -> Section
    requires { f.header ≤ length s.now }
    ensures { result ≡ seams f s.now }
{
    if f.has_seams() {
        section_at(Records::Seams, layout::SEAMS, f.seam, s)
    } else {
        Section {
            records: Records::Seams,
            count: 0,
            offset: 0,
            size: f.seam,
        }
    }
}

// How many seam items there must be.
pub fn seam_items(f: Format, s: &[u8]) -> usize
    requires { f.header ≤ length s.now }
    ensures { (result ≡ seam_items f s.now) × (result < 2 ^ 32) }
{
    if f.has_seams() {
        word(s, layout::COURSES) as usize
    } else {
        0
    }
}

// The byte where record i starts; at the count, the byte behind the last.
pub fn record_at(x: Section, i: usize) -> usize
    requires { record_at x i < 2 ^ 63 }
    ensures { result ≡ record_at x i }
{
    x.offset + x.size * i
}

// Behind the header and inside the file; an empty section's offset is not looked at.
#[tactic(auto, using(std::proofs::lemmas::Bool::Decides::nat_tests), unfolding(crate::specs::Section::placed))]
pub fn is_placed(header: usize, file_size: usize, x: Section) -> bool
    ensures { result ≡ placed header file_size x }
{
    x.count == 0 || header <= x.offset && x.end() <= file_size
}

// No byte in both.
#[tactic(auto, using(std::proofs::lemmas::Bool::Decides::nat_tests), unfolding(crate::specs::Section::apart))]
pub fn are_apart(x: Section, y: Section) -> bool
    ensures { result ≡ apart x y }
{
    x.count == 0 || y.count == 0 || x.end() <= y.offset || y.end() <= x.offset
}
