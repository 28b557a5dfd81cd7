// A dip height: what the tape reads at the dip point, in u.
ghost use Rattle.std.specs.Prelude.{◌≡◌};
ghost use Rattle.measure.specs.Quantity.{dip_height, dip_units};

#[derive(Clone, Copy, PartialEq, Eq, PartialOrd, Ord)]
pub struct DipHeight(u32);

impl From<u32> for DipHeight {
    ghost from_gives = { λ n x. x ≡ dip_height n };

    fn from(units: u32) -> DipHeight {
        DipHeight(units)
    }
}

impl DipHeight {
    pub fn units(self) -> u32
        ensures { result ≡ dip_units self }
    {
        self.0
    }
}
