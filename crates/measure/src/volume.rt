// A volume, in v.
ghost use Rattle.std.specs.Prelude.{◌≡◌, ◌+◌, ◌^◌, ◌<◌};
ghost use Rattle.measure.specs.Quantity.{volume, volume_units};

use std::ops::Add;

#[derive(Clone, Copy)]
pub struct Volume(u32);

// One v in cubic u.
pub const CUBIC_PER_V: u64 = 10_000_000_000;

impl From<u32> for Volume {
    ghost from_gives = { λ n x. x ≡ volume n };

    fn from(units: u32) -> Volume {
        Volume(units)
    }
}

impl Volume {
    pub fn units(self) -> u32
        ensures { result ≡ volume_units self }
    {
        self.0
    }
}

// Both volumes together.
impl Add for Volume {
    type Output = Volume;

    ghost can_add = { λ v w. volume_units v + volume_units w < 2 ^ 32 };

    ghost add_gives = { λ v w x. x ≡ volume (volume_units v + volume_units w) };

    fn add(self, other: Volume) -> Volume {
        Volume(self.0 + other.0)
    }
}
