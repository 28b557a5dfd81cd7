// The limits of the file's numbers that belong to the file alone.

// An outer circumference, wherever it was taken.
pub const SHORTEST_CIRCUMFERENCE: u32 = 150_000;

pub const LONGEST_CIRCUMFERENCE: u32 = 1_600_000;

pub const SHORTEST_SHELL: u32 = 100_000;

pub const SHORTEST_COURSE: u32 = 1;

pub const THINNEST: u32 = 100;

pub const THICKEST: u32 = 5_000;
