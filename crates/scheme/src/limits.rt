// The limits of document 01, and the default scheme of document 02, c; for the contracts they stand in specs/Limits.antt.

// The most parties.
pub const MAX_PARTIES: u8 = 16;
// The most counts.
pub const MAX_COUNTS: usize = 8;
// The longest block, in bytes.
pub const MAX_BLOCK: usize = 840;
// The longest message, in bytes.
pub const MAX_MESSAGE: usize = 16384;

// The default scheme.
pub const DEFAULT_N: u8 = 5;

pub const DEFAULT_R: u8 = 2;

pub const DEFAULT_Z: u8 = 2;

pub const DEFAULT_COUNTS: [u8; 3] = [5, 4, 3];

// The former default, that of document 01: to be named with shares that were stored under it, since nothing in a share tells
// its scheme. No call takes it by itself, and it does not move with the default.
pub const FORMER_DEFAULT_N: u8 = 5;

pub const FORMER_DEFAULT_R: u8 = 2;

pub const FORMER_DEFAULT_Z: u8 = 1;

pub const FORMER_DEFAULT_COUNTS: [u8; 3] = [5, 4, 3];
