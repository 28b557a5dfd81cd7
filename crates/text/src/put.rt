// Text put into lent memory, piece by piece, as much of it as there is room for.
ghost use Rattle.std.specs.Prelude.{[], ◌∷◌, ◌%◌, take};
ghost use Rattle.text.specs.Digits.{digit_of, digits, two_decimals, hundredths, minus_of};
ghost use Rattle.text.specs.Wrote.{Wrote};

// Lent memory, and the place in it behind what was put there. Each method puts its text at that place, and moves it behind the text.
#[derive(Drop)]
pub struct Writer<'a> {
    pub out: &'a mut [u8],
    pub at: usize,
}

impl Writer<'_> {
    #[tactic(auto, using(crate::specs::PutLaws::put_byte))]
    pub fn byte(&mut self, b: u8)
        ensures { Wrote (b ∷ []) self.old self.new }
    {
        if self.at < self.out.len() {
            self.out[self.at] = b;
            self.at += 1;
        }
    }

    pub fn bytes(&mut self, s: &[u8])
        ensures { Wrote s.now self.old self.new }
    {
        for b in s {
            self.byte(*b);
        }
    }

    // The first n bytes of s; all of it where it has no more. For a caller who has a count; this library lends slices.
    #[tactic(auto, using(std::proofs::lemmas::List::take_min))]
    pub fn first(&mut self, s: &[u8], n: usize)
        ensures { Wrote (take n s.now) self.old self.new }
    {
        self.bytes(&s[..n.min(s.len())]);
    }

    // The last digit of n.
    pub(crate) fn digit(&mut self, n: u64)
        ensures { Wrote (digit_of (n % 10) ∷ []) self.old self.new }
    {
        self.byte(b'0' + (n % 10) as u8);
    }

    // Not by `write!`: std tells what stands there only where all of it had room, and here it is told in either case.
    #[tactic(auto, using(crate::specs::DigitsLaws::digits_one))]
    pub fn digits(&mut self, n: u64)
        ensures { Wrote (digits n) self.old self.new }
    {
        if n < 10 {
            self.digit(n);
            return;
        }
        self.digits(n / 10);
        self.digit(n);
    }

    pub(crate) fn two_decimals(&mut self, n: u64)
        ensures { Wrote (two_decimals n) self.old self.new }
    {
        self.byte(b'.');
        self.digit(n / 10);
        self.digit(n);
    }

    pub fn hundredths(&mut self, n: u64)
        ensures { Wrote (hundredths n) self.old self.new }
    {
        self.digits(n / 100);
        self.two_decimals(n);
    }

    pub fn minus(&mut self, z: i64)
        ensures { Wrote (minus_of z) self.old self.new }
    {
        if z < 0 {
            self.byte(b'-');
        }
    }
}
