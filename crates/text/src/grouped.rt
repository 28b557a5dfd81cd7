// Hundredths as a person reads them: digits in threes, and two decimals.
ghost use Rattle.text.specs.Wrote.{Wrote};
ghost use Rattle.text.specs.Grouped.{three_digits, in_threes, grouped};

use crate::put::Writer;

// The most commas in a number of 64 bits.
const MOST_COMMAS: u32 = 6;

impl Writer<'_> {
    fn three_digits(&mut self, n: u64)
        ensures { Wrote (three_digits n) self.old self.new }
    {
        self.digit(n / 100);
        self.digit(n / 10);
        self.digit(n);
    }

    fn in_threes(&mut self, commas: u32, n: u64)
        ensures { Wrote (in_threes commas n) self.old self.new }
    {
        if commas == 0 || n < 1000 {
            self.digits(n);
            return;
        }
        self.in_threes(commas - 1, n / 1000);
        self.byte(b',');
        self.three_digits(n);
    }

    pub fn grouped(&mut self, n: u64)
        ensures { Wrote (grouped n) self.old self.new }
    {
        self.in_threes(MOST_COMMAS, n / 100);
        self.two_decimals(n);
    }
}
