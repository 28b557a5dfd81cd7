// A file with a header of 48 bytes, put into lent memory in today's format.
ghost use Rattle.refusal.specs.Test.{verdict_in};
ghost use Rattle.std.specs.Prelude.{◌≡◌, ◌++◌, ◌≤◌, length};
ghost use Rattle.deadwood.specs.Item.{most_items};
ghost use Rattle.file.specs.Layout.{header_end};
ghost use Rattle.file.specs.Format.{format48};
ghost use Rattle.file.specs.Limits.{most_courses};
ghost use Rattle.file.specs.SectionLaws.{Inside};
ghost use Rattle.survey.specs.Survey.{decoded_as};
ghost use Rattle.text.specs.Wrote.{Wrote};
ghost use Rattle.rewrite.specs.Rewritten.{offset_of, section_bytes, header_of, no_seams, rewritten, most_bytes};

use crate::put::{put_section, put_zeros};
use file::format::Format;
use file::layout;
use file::section::{Section, courses, deadwood};
use text::put::Writer;

// The most bytes that such a file has: with 40 courses and 64 deadwood items.
pub const MOST_BYTES: usize = 1_944;

// The offset of a section that has so many records and starts at a byte: an empty one's is 0.
fn offset_of(count: u32, at: u32) -> u32
    ensures { result ≡ offset_of count at }
{
    if count == 0 { 0 } else { at }
}

// The header, of so many courses and deadwood items: all before the sections' words as it was.
fn put_header(w: &mut Writer, s: &[u8], courses: u32, items: u32)
    requires { (header_end ≤ length s.now) × (courses ≤ most_courses) × (items ≤ most_items) }
    ensures { Wrote (header_of s.now courses items) w.old w.new }
{
    let header = layout::SEAM_HEADER_END as u32;
    let from_deadwood = header + layout::COURSE_END as u32 * courses;
    let from_seams = from_deadwood + layout::ITEM_END as u32 * items;
    w.bytes(&s[..layout::COURSES]);
    put_section(w, courses, offset_of(courses, header));
    put_section(w, items, offset_of(items, from_deadwood));
    put_section(w, courses, offset_of(courses, from_seams));
}

// The bytes of a section; an empty one's offset is not looked at.
fn put_records(w: &mut Writer, s: &[u8], x: Section)
    requires { Inside s.now x }
    ensures { Wrote (section_bytes s.now x) w.old w.new }
{
    if x.count == 0 {
        return;
    }
    let start = x.offset;
    let end = x.end();
    w.bytes(&s[start..end]);
}

// The sections end to end, and as many seam items as courses, all 0.
fn put_sections(w: &mut Writer, s: &[u8], c: Section, d: Section)
    requires { Inside s.now c × Inside s.now d }
    ensures { Wrote (section_bytes s.now c ++ (section_bytes s.now d ++ no_seams c.count)) w.old w.new }
{
    put_records(w, s, c);
    put_records(w, s, d);
    put_zeros(w, layout::SEAM_END * c.count);
}

// The whole file, of one that is not refused.
pub fn put_rewritten(w: &mut Writer, s: &[u8])
    requires { verdict_in (decoded_as format48 s.now) ≡ Ok tt }
    ensures put { Wrote (rewritten s.now) w.old w.new }
    ensures s_len_bound { length (rewritten s.now) ≤ most_bytes }
    ensures most_bytes_value { MOST_BYTES ≡ most_bytes }
{
    let f = Format::header_of_48();
    let c = courses(f, s);
    let d = deadwood(f, s);
    put_header(w, s, c.count as u32, d.count as u32);
    put_sections(w, s, c, d);
}
