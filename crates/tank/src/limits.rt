// The largest lengths of a tank's cylinders, in u.
pub const LONGEST_SHELL: u32 = 3_000_000;

// Of one flange.
pub const LONGEST_FLANGE: u32 = 20_000;
