// Where each number of a survey file stands: the bytes of the header's words, and those of a record's words counted from its start.

// in the header
pub const KIND: usize = 0;

pub const DH: usize = 4;

pub const L1: usize = 8;

pub const LEFT: usize = 12;

pub const RIGHT: usize = 16;

pub const L2: usize = 20;

pub const L3: usize = 24;

pub const STEP: usize = 28;

// the count of the courses, and behind it their byte offset
pub const COURSES: usize = 32;

// likewise of the deadwood
pub const DEADWOOD: usize = 40;

// likewise of the seams, in the formats that have them
pub const SEAMS: usize = 48;

// in a course
pub const FIRST_CIRCUMFERENCE: usize = 0;

pub const SECOND_CIRCUMFERENCE: usize = 4;

pub const COURSE_LENGTH: usize = 8;

pub const THICKNESS: usize = 12;

// in a deadwood item
pub const LOW_HEIGHT: usize = 0;

pub const HIGH_HEIGHT: usize = 4;

pub const ITEM_VOLUME: usize = 8;

// in a seam item
pub const SEAM_NUMBER: usize = 0;

pub const SEAM_THICKNESS: usize = 4;

pub const SEAM_WIDTH: usize = 8;

// behind the last word of the header that every format has, and behind those of the seams
pub const HEADER_END: usize = 48;

pub const SEAM_HEADER_END: usize = 56;

// behind the last word of a course, of a deadwood item and of a seam item
pub const COURSE_END: usize = 16;

pub const ITEM_END: usize = 12;

pub const SEAM_END: usize = 12;
