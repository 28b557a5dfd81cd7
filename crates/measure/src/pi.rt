// Pi for a result is PI_OVER / PI_UNDER.
pub const PI_OVER: u64 = 355;

pub const PI_UNDER: u64 = 113;
