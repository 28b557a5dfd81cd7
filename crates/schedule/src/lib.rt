// The heights of the rows of a table: how many there are, and where each stands.
#![tactic(auto)]

ghost use Rattle.std.specs.Prelude.{◌≡◌, ◌<◌};
ghost use Rattle.measure.specs.Quantity.{dip_height};
ghost use Rattle.schedule.specs.Rows.{smallest_step, largest_step, most_rows, row_count, row_height};

use measure::dip_height::DipHeight;

// The limits of a step, in u.
pub const SMALLEST_STEP: u32 = 100;

pub const LARGEST_STEP: u32 = 10_000;

// The most rows that the limits allow.
pub const MOST_ROWS: usize = 5_001;

// Where the rows of a table stand: at each multiple of the step up to DH, and at DH.
#[derive(Clone, Copy)]
pub struct Schedule {
    pub dh: u32,
    pub step: u32,
    pub ghost rising: { 0 < step },
}

impl Schedule {
    // How many rows a table has: one at each multiple of the step up to DH, and one more at DH where that is none. The limits above are
    // those of the definition.
    #[tactic(auto, using(crate::specs::RowsLaws::count_even, crate::specs::RowsLaws::count_odd))]
    pub fn rows(self) -> usize
        ensures value { result ≡ row_count self.dh self.step }
        ensures smallest_step_value { SMALLEST_STEP ≡ smallest_step }
        ensures largest_step_value { LARGEST_STEP ≡ largest_step }
        ensures most_rows_value { MOST_ROWS ≡ most_rows }
    {
        self.dh.div_ceil(self.step) as usize + 1
    }

    // The height of row i, which is below the row count.
    #[tactic(auto, using(crate::specs::RowsLaws::steps_at_most), unfolding(crate::specs::Rows::row_height))]
    pub fn height(self, i: usize) -> DipHeight
        requires { i < row_count self.dh self.step }
        ensures { result ≡ dip_height (row_height self.dh self.step i) }
    {
        let h = (i * self.step as usize).min(self.dh as usize);
        DipHeight::from(h as u32)
    }
}
