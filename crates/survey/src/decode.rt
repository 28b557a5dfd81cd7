// The survey that a file holds, or the refusal of any other. A file is read here and nowhere else.
ghost use Rattle.std.specs.Prelude.{◌≡◌, ◌≤◌, length};
ghost use Rattle.measure.specs.Quantity.{diameter, diameter_units};
ghost use Rattle.file.specs.Word.{word};
ghost use Rattle.file.specs.Layout.{header_end, dh_at};
ghost use Rattle.file.specs.Format.{format48};
ghost use Rattle.file.specs.Section.{deadwood};
ghost use Rattle.form.specs.PlacedLaws.{Placed};
ghost use Rattle.records.specs.Item.{items_of};
ghost use Rattle.tank.specs.TankLaws.{TankLimits};
ghost use Rattle.survey.specs.Survey.{tank_of, survey_of_parts, survey_with, decoded_as, decoded};
ghost use Rattle.survey.specs.SurveyLaws.{SurveyLimits, WithinLimits};
ghost use Rattle.survey.specs.Held.{filled_up};

use crate::judge::judged;
use deadwood::item::{Deadwood, MOST_ITEMS};
use dimensions::dimensions::Diameters;
use file::format::Format;
use file::layout;
use file::section::{deadwood, record_at};
use file::word::word;
use form::tests;
use heads::kind::HeadKind;
use records::item::item_from;
use refusal::Refusal;
use std::marker::Model;
use tank::tank::Tank;

// The size in bytes past which every file is refused: what a caller reads of one.
pub const LARGEST_FILE: usize = tests::LARGEST_FILE;

// The length in bytes of the header that old files have: what `decode_48` reads.
pub const OLD_HEADER: usize = layout::HEADER_END;

// All that a table is made of, of a file that is not refused. Nothing is allocated, so the deadwood has room for the most items, with a count beside it; both
// are seen here alone. Behind the items stand items that take nothing.
#[derive(Clone, Copy)]
pub struct Survey {
    pub tank: Tank,
    pub step: u32,
    items: [Deadwood; MOST_ITEMS],
    count: usize,
}

impl Model for Survey {
    ghost use Rattle.survey.specs.Contents.{Contents};

    ghost Value = { Contents };

    ghost use Rattle.survey.specs.Held.{contents, held, held_again, Accepted};

    ghost view = { contents };

    ghost invariant = { Accepted };

    ghost inverse = { held };

    ghost inverse_ok = { held_again };
}

impl Survey {
    // A survey of a tank, a step and deadwood items: for who has these and no file.
    pub fn of(tank: Tank, step: u32, deadwood: &[Deadwood]) -> Survey
        requires { SurveyLimits (survey_of_parts tank step deadwood.now) }
        ensures { result ≡ survey_of_parts tank step deadwood.now }
    {
        let count = deadwood.len();
        let mut items = [Deadwood::nothing(); MOST_ITEMS];
        items[..count].copy_from_slice(deadwood);
        Survey {
            tank,
            step,
            items,
            count,
        }
    }

    // The deadwood items.
    pub fn deadwood(&self) -> &[Deadwood]
        ensures { result.now ≡ self.now.deadwood }
    {
        &self.items[..self.count]
    }
}

// The deadwood items as one list of records. Over indices: the law that carries the loop (`Filled`) is about the index.
fn items(f: Format, s: &[u8]) -> [Deadwood; MOST_ITEMS]
    requires { Placed f s.now }
    ensures { result ≡ filled_up (items_of f s.now) }
{
    let x = deadwood(f, s);
    let mut list = [Deadwood::nothing(); MOST_ITEMS];
    for i in 0..x.count {
        list[i] = item_from(s, record_at(x, i));
    }
    list
}

// The tank of a file, with its diameters.
fn tank_of(s: &[u8], found: Diameters) -> Tank
    requires { (header_end ≤ length s.now) × (found.dh ≡ diameter (word s.now dh_at)) × TankLimits (tank_of s.now (diameter_units found.d1) (diameter_units found.d2)) }
    ensures { result ≡ tank_of s.now (diameter_units found.d1) (diameter_units found.d2) }
{
    Tank {
        kind: HeadKind::of(word(s, layout::KIND)),
        dh: found.dh,
        d1: found.d1,
        d2: found.d2,
        l1: word(s, layout::L1),
        l2: word(s, layout::L2),
        l3: word(s, layout::L3),
    }
}

// The survey of a file that is not refused, with its diameters.
fn survey_of(f: Format, s: &[u8], found: Diameters) -> Survey
    requires file { Placed f s.now × (found.dh ≡ diameter (word s.now dh_at)) }
    requires limits { SurveyLimits (survey_with f s.now (diameter_units found.d1) (diameter_units found.d2)) }
    ensures { result ≡ survey_with f s.now (diameter_units found.d1) (diameter_units found.d2) }
{
    Survey {
        tank: tank_of(s, found),
        step: word(s, layout::STEP),
        items: items(f, s),
        count: deadwood(f, s).count,
    }
}

// A file of any bytes, of any length, in a format.
fn decode_as(f: Format, s: &[u8]) -> Result<Survey, Refusal>
    ensures { result ≡ decoded_as f s.now }
{
    let found = judged(f, s)?;
    Ok(survey_of(f, s, found))
}

// A file of any bytes, of any length. That a survey is within its limits is told too, for whoever hands it on unread.
pub fn decode(s: &[u8]) -> Result<Survey, Refusal>
    ensures value { result ≡ decoded s.now }
    ensures within_limits { WithinLimits result }
{
    decode_as(Format::today(), s)
}

// .. with a header of 48 bytes. A name of its own and no format handed in: above this room nobody names a file's bytes.
pub fn decode_48(s: &[u8]) -> Result<Survey, Refusal>
    ensures value { result ≡ decoded_as format48 s.now }
    ensures within_limits { WithinLimits result }
{
    decode_as(Format::header_of_48(), s)
}
