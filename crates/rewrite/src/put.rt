// Numbers and zeros put into lent memory as a survey file holds them.
ghost use Rattle.std.specs.Prelude.{[], ◌∷◌, replicate};
ghost use Rattle.file.specs.Word.{word_bytes, bytes_of};
ghost use Rattle.text.specs.Wrote.{Wrote};

use text::put::Writer;

// The four bytes of a number, the lowest first.
pub fn put_word(w: &mut Writer, n: u32)
    ensures { Wrote (word_bytes n) w.old w.new }
{
    w.bytes(&n.to_le_bytes());
}

// A section's words in the header: how many records, and from which byte on.
pub fn put_section(w: &mut Writer, count: u32, offset: u32)
    ensures { Wrote (bytes_of (count ∷ offset ∷ [])) w.old w.new }
{
    put_word(w, count);
    put_word(w, offset);
}

pub fn put_zeros(w: &mut Writer, n: usize)
    ensures { Wrote (replicate n 0) w.old w.new }
{
    for _ in 0..n {
        w.byte(0);
    }
}
