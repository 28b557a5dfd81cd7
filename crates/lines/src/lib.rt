// The lines that the programs print, each with its line end, put into lent memory; and how long a line can be.
// Each is another sequence of the writer's pieces; one function over all would be handed that sequence, which is the line.
#![tactic(auto, using(crate::specs::SizeLaws::line_sizes))]

ghost use Rattle.std.specs.Prelude.{◌≤◌, length};
ghost use Rattle.lines.specs.Lines.{rows_line, row_line, refused_line, figure_line, sign_of, signed_line, line_size, row_size};
ghost use Rattle.text.specs.Wrote.{Wrote};

use text::put::Writer;

pub fn rows_line(w: &mut Writer, n: u32)
    ensures put { Wrote (rows_line n) w.old w.new }
    ensures short { length (rows_line n) ≤ line_size }
{
    w.bytes(b"rows ");
    w.digits(n as u64);
    w.byte(b'\n');
}

pub fn row_line(w: &mut Writer, h: u32, v: u32)
    ensures put { Wrote (row_line h v) w.old w.new }
    ensures short { length (row_line h v) ≤ row_size }
{
    w.hundredths(h as u64);
    w.byte(b' ');
    w.hundredths(v as u64);
    w.byte(b'\n');
}

pub fn refused_line(w: &mut Writer, number: u32, place: u32)
    ensures put { Wrote (refused_line number place) w.old w.new }
    ensures short { length (refused_line number place) ≤ line_size }
{
    w.bytes(b"refused ");
    w.digits(number as u64);
    w.byte(b' ');
    w.digits(place as u64);
    w.byte(b'\n');
}

pub fn figure_line(w: &mut Writer, n: u32)
    ensures put { Wrote (figure_line n) w.old w.new }
    ensures short { length (figure_line n) ≤ line_size }
{
    w.hundredths(n as u64);
    w.byte(b'\n');
}

// A sign, where any is said.
fn put_sign(w: &mut Writer, z: i64)
    ensures { Wrote (sign_of z) w.old w.new }
{
    if 0 < z {
        w.byte(b'+');
    } else {
        w.minus(z);
    }
}

// A difference, with its sign.
pub fn signed_line(w: &mut Writer, z: i64)
    ensures put { Wrote (signed_line z) w.old w.new }
    ensures short { length (signed_line z) ≤ line_size }
{
    put_sign(w, z);
    w.hundredths(z.unsigned_abs());
    w.byte(b'\n');
}
