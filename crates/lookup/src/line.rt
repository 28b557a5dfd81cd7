// The value on the straight line between two rows, and between neighbour rows of a table.
ghost use Rattle.std.specs.Prelude.{◌≡◌, ◌+◌, ◌≤◌, ◌<◌, length};
ghost use Rattle.schedule.specs.Rows.{largest_step};
ghost use Rattle.lookup.specs.Line.{line_value};
ghost use Rattle.lookup.specs.Table.{row};

use arith::nearest::nearest_quotient;

// Between rows a and b, x above the lower of them, with the rows so far apart.
#[tactic(auto, using(crate::proofs::LineLaws::line_at_most), unfolding(crate::specs::Line::line_value))]
fn line_value(a: u32, b: u32, x: u32, gap: u32) -> u32
    requires { (a ≤ b) × (x ≤ gap) × (0 < gap) × (gap ≤ largest_step) }
    ensures { result ≡ line_value a b x gap }
{
    let weighed = u64::from(a) * u64::from(gap - x) + u64::from(b) * u64::from(x);
    nearest_quotient(weighed, u64::from(gap)) as u32
}

// x above row i of a table, on the line to row i + 1.
pub fn on_line(table: &[u32], i: usize, x: u32, gap: u32) -> u32
    requires neighbours_rise { (i + 1 < length table.now) × (row table.now i ≤ row table.now (i + 1)) }
    requires between_them { (x ≤ gap) × (0 < gap) × (gap ≤ largest_step) }
    ensures { result ≡ line_value (row table.now i) (row table.now (i + 1)) x gap }
{
    line_value(table[i], table[i + 1], x, gap)
}
