// The numbers of document 01 that more than one rule names, each once.

// Width and height are multiples of this.
pub const SIDE_STEP: usize = 8;

pub const LARGEST_SIDE: usize = 1024;

// A cell is so many pixels a side.
pub const CELL_SIDE: usize = 4;

// A superblock is so many pixels a side.
pub const SB_SIZE: usize = 64;

// Vector components keep inside this on either side of zero.
pub const VECTOR_LIMIT: usize = 16_383;

// A pixel is so many units of a vector.
pub const EIGHTHS: i16 = 8;
