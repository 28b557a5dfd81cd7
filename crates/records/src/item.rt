// Deadwood and seam items as a file holds them.
ghost use Rattle.std.specs.Prelude.{◌≡◌, ◌+◌, ◌≤◌, length};
ghost use Rattle.file.specs.Layout.{item_end, seam_end};
ghost use Rattle.records.specs.Item.{item_from, seam_from};

use deadwood::item::Deadwood;
use file::layout;
use file::word::{signed_word, word};
use measure::dip_height::DipHeight;
use seams::seam::Seam;

// The deadwood item whose record starts at a byte.
pub fn item_from(s: &[u8], at: usize) -> Deadwood
    requires { at + item_end ≤ length s.now }
    ensures { result ≡ item_from s.now at }
{
    Deadwood {
        low: DipHeight::from(word(s, at + layout::LOW_HEIGHT)),
        high: DipHeight::from(word(s, at + layout::HIGH_HEIGHT)),
        volume: signed_word(s, at + layout::ITEM_VOLUME),
    }
}

// The seams whose item starts at a byte.
pub fn seam_from(s: &[u8], at: usize) -> Seam
    requires { at + seam_end ≤ length s.now }
    ensures { result ≡ seam_from s.now at }
{
    Seam {
        number: word(s, at + layout::SEAM_NUMBER),
        thickness: word(s, at + layout::SEAM_THICKNESS),
        width: word(s, at + layout::SEAM_WIDTH),
    }
}
