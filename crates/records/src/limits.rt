// The numbers of a grid file, each once.

// Every record starts with these two bytes.
pub const MARK: [u8; 2] = [0x4C, 0x47];

pub const HEADER_BYTES: usize = 4;

pub const CELL_BYTES: usize = 10;

// The place of the last byte of each.
pub const HEADER_LAST: u32 = HEADER_BYTES as u32 - 1;

pub const CELL_LAST: u32 = CELL_BYTES as u32 - 1;

// A byte less one says how many columns or rows there are.
pub const MOST_CELLS: u32 = 256;

// So many cells a file has at the most.
pub const MOST_FILE_CELLS: usize = 65_536;
