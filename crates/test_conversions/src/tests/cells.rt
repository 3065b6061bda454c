//! Cells of arrays for several tests.

/// The `INT4_ARRAY` of 1 and 2.
pub const ONE_AND_TWO: [u8; 36] = [
    0, 0, 0, 1, 0, 0, 0, 0, 0, 0, 0, 0x17, 0, 0, 0, 2, 0, 0, 0, 1, 0, 0, 0, 4, 0, 0, 0, 1, 0, 0, 0,
    4, 0, 0, 0, 2,
];

/// An array of no dimension.
pub const NO_DIMENSION: [u8; 12] = [0, 0, 0, 0, 0, 0, 0, 0, 0, 0, 0, 0x17];

/// The array of one NULL.
pub const NULL: [u8; 24] = [
    0, 0, 0, 1, 0, 0, 0, 1, 0, 0, 0, 0x17, 0, 0, 0, 1, 0, 0, 0, 1, 0xff, 0xff, 0xff, 0xff,
];
