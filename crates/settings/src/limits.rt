/// The workers of a check for which no number is given.
pub const USUAL_WORKERS: u32 = 1;

/// The most workers of a check.
pub const MOST_WORKERS: u32 = 16;

/// The cells of a check for which no number is given.
pub const USUAL_CELLS: u32 = 262_144;

/// The most cells of a check.
pub const MOST_CELLS: u32 = 1_048_576;

/// The least cells for each worker. The cells of a check are a multiple of it.
pub const CELLS_OF_WORKER: u32 = 256;

/// The most digits of a number.
pub(crate) const MOST_DIGITS: usize = 7;
