/// The most bytes of a text that is read.
pub const MOST_BYTES: usize = 1_048_576;
